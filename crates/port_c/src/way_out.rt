// The exports of the ways out, and of what shut a step out.
ghost use Rattle.std.specs.Prelude.{◌≡◌, length};
ghost use Rattle.port.specs.WayOut.{finish_number, finish_bytes, shut_number};
ghost use Rattle.port.specs.WayOut.{desk_finish_number, desk_finish_bytes};

// The way out from a marking, on the graph of a file.
#[unsafe(no_mangle)]
pub extern "C" fn skelfora_finish<'a, 'w>(
    file: &'a [u8],
    marking: &'a [u8],
    way: &'w mut [u8],
) -> u64
    ensures value { result ≡ finish_number file.now marking.now (length way.old) }
    ensures way_after { way.new ≡ finish_bytes file.now marking.now way.old }
{
    port::way_out::skelfora_finish(file, marking, way)
}

// The way out of the call at a place of the desk.
#[unsafe(no_mangle)]
pub extern "C" fn skelfora_desk_finish<'a, 'w>(
    file: &'a [u8],
    table: &'a [u8],
    place: usize,
    way: &'w mut [u8],
) -> u64
    ensures value { result ≡ desk_finish_number file.now table.now place (length way.old) }
    ensures way_after { way.new ≡ desk_finish_bytes file.now table.now place way.old }
{
    port::way_out::skelfora_desk_finish(file, table, place, way)
}

// What shut a step out in a trace, on the graph of a file.
#[unsafe(no_mangle)]
pub extern "C" fn skelfora_shut_by(file: &[u8], trace: &[u8], activity: u8) -> u64
    ensures { result ≡ shut_number file.now trace.now activity }
{
    port::way_out::skelfora_shut_by(file, trace, activity)
}
