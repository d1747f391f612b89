// Which objects are within reach of a rectangle (RULES "Reach"): one pass over the 32-bit columns of objects at scaled places, which the
// compiler can vectorise. The rectangle is scaled once, before the pass.
#![tactic(auto)]

ghost use Rattle.std.specs.Prelude.{◌≡◌};
ghost use Rattle.deck.specs.Values.{rect_of};
ghost use Rattle.reach.specs.Columns.{Ranged};
ghost use Rattle.reach.specs.ObjectReach.{flags_of};
ghost use Rattle.reach.specs.Held.{pricing_of_objects};

mod objects;
mod rectangle;

use deck::Rect;
use limits::STOPS;
pub use objects::{Objects, Row};
pub use rectangle::Edges;

/// For each row of the objects whether it is within reach of the rectangle (RULES "Reach"); `false` behind the last object.
pub fn reach_flags(objects: &Objects, rectangle: Rect) -> [bool; STOPS]
    requires { Ranged (rect_of rectangle) }
    ensures { result ≡ flags_of (pricing_of_objects objects.now) (rect_of rectangle) }
{
    let edges = Edges::of(objects.axis(), rectangle);
    let mut flags = [false; STOPS];
    for i in 0..objects.count() {
        let row = objects.row(i);
        flags[i] = edges.reached_from(row.x, row.y, row.near);
    }
    flags
}
