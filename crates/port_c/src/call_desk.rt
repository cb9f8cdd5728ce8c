// The exports of the call desk's functions.
ghost use Rattle.std.specs.Prelude.{◌≡◌};
ghost use Rattle.port.specs.Desk.{desk_open_number, desk_open_table, desk_step_number, desk_step_table};
ghost use Rattle.port.specs.Desk.{desk_close_number, desk_close_table};

// Opens the lowest free place.
#[unsafe(no_mangle)]
pub extern "C" fn skelfora_desk_open(file: &[u8], table: &mut [u8]) -> u64
    ensures value { result ≡ desk_open_number file.now table.old }
    ensures table_after { table.new ≡ desk_open_table file.now table.old }
{
    port::call_desk::skelfora_desk_open(file, table)
}

// One activity at one place.
#[unsafe(no_mangle)]
pub extern "C" fn skelfora_desk_step(
    file: &[u8],
    table: &mut [u8],
    place: usize,
    activity: u8,
) -> u64
    ensures value { result ≡ desk_step_number file.now table.old place activity }
    ensures table_after { table.new ≡ desk_step_table file.now table.old place activity }
{
    port::call_desk::skelfora_desk_step(file, table, place, activity)
}

// Frees a place whose call is accepting.
#[unsafe(no_mangle)]
pub extern "C" fn skelfora_desk_close(file: &[u8], table: &mut [u8], place: usize) -> u64
    ensures value { result ≡ desk_close_number file.now table.old place }
    ensures table_after { table.new ≡ desk_close_table file.now table.old place }
{
    port::call_desk::skelfora_desk_close(file, table, place)
}
