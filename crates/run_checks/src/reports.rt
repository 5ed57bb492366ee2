// A call that the tests make.
ghost use Rattle.std.specs.Prelude.{◌≡◌, true};
ghost use Rattle.calls.specs.declared.call.Call.TheVariants.{Report};

use calls::Call;

// A shown report.
pub(crate) fn report(ticket: u64, bits: u32, droppable: bool) -> Call
    ensures { result ≡ Report ticket bits true droppable }
{
    Call::Report {
        ticket,
        bits,
        shown: true,
        droppable,
    }
}
