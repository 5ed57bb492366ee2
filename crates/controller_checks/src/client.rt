// How a program uses tickets: what its author writes, and what the check refuses if it is left out.
use calls::Reported;
use controller::{Choice, Controller};
use model::BitModel;
use outlook::NothingAhead;

// A frame from its choice to its report, with the ticket in hand. A refused report gives the ticket back, and the frame
// is withdrawn; `None` where the choice or the report is refused.
pub(crate) fn coded<M: BitModel>(
    controller: &mut Controller<M>,
    subtype: u8,
    bits: u32,
) -> Option<Reported> {
    let Ok(
        Choice {
            ticket,
            decision: _,
        },
    ) = controller.choose(subtype, &NothingAhead, None, 0)
    else {
        return None;
    };
    match controller.report(ticket, bits, true, false) {
        Ok(reported) => Some(reported),
        Err(unspent) => {
            controller.withdraw(unspent.ticket);
            None
        }
    }
}
