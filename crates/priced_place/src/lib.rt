// Places with their costs (RULES "Cost"). And, in specs/, the problem that both searches take.
#![tactic(auto)]

ghost use Rattle.std.specs.Prelude.{◌≡◌};
ghost use Rattle.query.specs.Range.{PlaceInRange};
ghost use Rattle.deck.specs.Values.{place_of};
ghost use Rattle.reach.specs.Held.{pricing_of_objects};
ghost use Rattle.priced_place.specs.ObjectProblem.{priced_place_of, priced_place_at};

use deck::Place;
use reach::Objects;

/// A place with its cost.
#[derive(Clone, Copy)]
pub struct PricedPlace {
    pub at: Place,
    pub cost: u64,
}

/// The place `at` with its cost (RULES "Cost").
pub fn priced(objects: &Objects, at: Place) -> PricedPlace
    requires { PlaceInRange (place_of at) }
    ensures { result ≡ priced_place_of (pricing_of_objects objects.now) (place_of at) }
{
    let cost = pricing::cost(objects, at);
    with_cost(at, cost)
}

/// A place with a cost that is known: it is not priced again.
pub fn with_cost(at: Place, cost: u64) -> PricedPlace
    ensures { result ≡ priced_place_at at.x at.y cost }
{
    PricedPlace { at, cost }
}
