// One call on a box, whichever it is.
ghost use Rattle.machine.specs.Calls.{image};
ghost use Rattle.siteunit.specs.Obeying.{Obeys};
ghost use Rattle.stream.specs.Calls.{heard};
ghost use Rattle.session.specs.Sessions.{told};

use interpreter::Ending;
use lattice::Lattice;
use records::Refusal;
use siteunit::SiteBox;
use store::Store;
use stream::{Answer, Call, IMAGE_ROOM, ImageBytes};

// The image of the store, for who may know every variable.
fn show<L: Lattice, S: Store>(site: &SiteBox<L, S>, level: u32) -> Result<Answer, Refusal>
    ensures { Obeys L.Lattice.lattice S.Store.values S.Store.image told site.now site.now (image level 320) result }
{
    let mut buffer = [0; IMAGE_ROOM];
    let size = site.image(level, &mut buffer)?;
    Ok(Answer::Image(ImageBytes { size, buffer }))
}

// Makes the call.
pub(crate) fn perform<L: Lattice, S: Store>(
    site: &mut SiteBox<L, S>,
    call: &Call,
) -> Result<Answer, Refusal>
    ensures { Obeys L.Lattice.lattice S.Store.values S.Store.image told site.old site.new (heard 320 call.now) result }
{
    Ok(match *call {
        Call::Sheet(bytes) => Answer::Number(i32::from(site.sheet(bytes)?)),
        Call::Load(bytes) => Answer::Number(i32::from(site.load(bytes)?)),
        Call::Feed { variable, value } => {
            site.feed(variable, value)?;
            Answer::Number(0)
        }
        Call::Raise { condition } => {
            site.raise(condition)?;
            Answer::Number(0)
        }
        Call::Lower { condition } => {
            site.lower(condition)?;
            Answer::Number(0)
        }
        Call::Pass { turns } => match site.pass(turns)? {
            Ending::Done { used } => Answer::Done(used),
            Ending::Spent { used } => Answer::Spent(used),
        },
        Call::Look { level, variable } => Answer::Number(site.look(level, variable)?),
        Call::Ask { level, condition } => Answer::Number(i32::from(site.ask(level, condition)?)),
        Call::Image { level } => show(site, level)?,
    })
}
