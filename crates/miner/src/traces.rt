// The first traces of a log, which every pass of mining walks over.
ghost use Rattle.std.specs.Prelude.{◌≡◌};
ghost use Rattle.calllog.specs.Logs.{part_at};

use calllog::trace::trace_at;

#[derive(Clone, Copy)]
pub(crate) struct Traces<'a> {
    pub(crate) log: &'a [u8],
    // How many: as many as the log has, where it is accepted.
    pub(crate) count: usize,
}

impl<'a> Traces<'a> {
    pub(crate) fn at(&self, k: usize) -> &'a [u8]
        ensures { result.now ≡ part_at self.now.log.now k }
    {
        let log = self.log;
        trace_at(log, k)
    }
}
