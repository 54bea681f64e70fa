// What the definitions come to, as facts that a proof gets by a call: each call does nothing. Those of keyed lists are of
// lists of any type, by any key.
ghost use Rattle.xp_base.specs.KeyedLaws.{KeyedFinds, KeyedKeeps, KeyedOrders, KeyedPlaces};

/// Which item is found by a key once one was put at the end, changed, replaced, taken away or moved to the end; and only
/// what a change makes of that item matters.
pub fn keyed_finds<T>()
    ensures { KeyedFinds T }
{}

/// Each of these keeps that no two items have one key.
pub fn keyed_keeps<T>()
    ensures { KeyedKeeps T }
{}

/// The order of the keys after each of these.
pub fn keyed_orders<T>()
    ensures { KeyedOrders T }
{}

/// What is done at the place of the item with a key is done to the item of that key.
pub fn keyed_places<T>()
    ensures { KeyedPlaces T }
{}
