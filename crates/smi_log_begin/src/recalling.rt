//! The names that the logs before had, told to a manager.
ghost use Rattle.std.specs.Prelude.{◌≡◌, OnOk};
ghost use Rattle.smi_live_carried.specs.Recalling.{recalled_from};

use smi_carried::CarriedOnce;
use smi_live::{Manager, Observer, Recalled};
use smi_live_carried::laws_of_recalling;
use smi_request_fates::Stands;
use std::alloc::AllocError;

// What is known of a name.
fn recalled_of(once: &CarriedOnce) -> Recalled<'_>
    ensures name { result.name.now ≡ once.now.name }
    ensures number { result.number ≡ once.now.number }
    ensures what { result.what.now ≡ once.now.what }
{
    let place = match once.place {
        Some(place) => {
            let stands = Stands {
                state: place.state,
                ended: place.version,
            };
            Some((place.object, stands))
        }
        None => None,
    };
    Recalled {
        name: &once.name,
        number: once.number,
        what: &once.what,
        place,
    }
}

/// Tells a manager, of which no line was made yet, what the logs before had of these names, one after another. The cost
/// is the square of the count of names. The error is out of memory; then some of them were told.
pub fn recall_all<L: Observer>(
    manager: &mut Manager<L>,
    names: &[CarriedOnce],
) -> Result<(), AllocError>
    ensures { OnOk result (manager.new
        ≡ record manager.old { told = recalled_from manager.old.told names.now }) }
{
    laws_of_recalling();
    for once in names {
        manager.recall(&recalled_of(once))?;
    }
    Ok(())
}
