// The deliveries of a message.
ghost use Rattle.std.specs.Prelude.{◌≡◌, [], ◌∷◌, ◌++◌, OnOk};
ghost use Rattle.sg_tree.specs.Walk.{deliveries_to};

use sg_msg::{Message, Offer};
use std::alloc::AllocError;

fn push_offer(offers: &mut Vec<Offer>, offer: Offer) -> Result<(), AllocError>
    ensures { OnOk result (offers.new.items ≡ offers.old.items ++ offer ∷ []) }
{
    offers.push(offer)?;
    Ok(())
}

/// Offers the message to each destination.
pub fn deliver(
    drivers: &[u32],
    message: &Message,
    flow: bool,
    offers: &mut Vec<Offer>,
) -> Result<(), AllocError>
    ensures { OnOk result
        (offers.new.items ≡ offers.old.items ++ deliveries_to drivers.now message.now flow) }
{
    for dest in drivers {
        let offer = Offer {
            dest: *dest,
            message: message.share()?,
            flow,
        };
        push_offer(offers, offer)?;
    }
    Ok(())
}
