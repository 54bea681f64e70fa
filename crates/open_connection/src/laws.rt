// What is kept of a connection while its bytes are read and lines are painted. Each law makes the calls of those that
// it stands on.
ghost use Rattle.open_connection.specs.Laws.{HearingListens, HearingEnds, HearingTells, ChangingTells, ChangingListens, ChangingFits};

use attached_client::{
    Attached, a_change_keeps_a_client, a_new_client_attaches, acting_keeps_what_is_told,
};
use client_delivery::a_client_that_attaches_is_told;
use client_talk::{an_ending_has_its_cause, the_talk_goes_on};
use std::marker::Model;

/// A client whatever room it has, for laws alone.
#[derive(Drop)]
struct Plain {
    client: Attached,
}

impl Model for Plain {
    ghost use Rattle.attached_client.specs.Client.{ClientSeen};

    ghost Value = { ClientSeen };

    ghost view = { λ p. p.client.client };
}

/// The packets handled are those of the bytes given, and what ends a connection is said by these.
pub fn what_is_heard_is_what_was_given()
    ensures goes_on { HearingListens }
    ensures ends { HearingEnds }
{
    the_talk_goes_on::<Plain>();
    an_ending_has_its_cause::<Plain>();
}

/// Whatever is heard, each window of the client stays the model's.
pub fn hearing_keeps_what_is_told()
    ensures { HearingTells }
{
    a_client_that_attaches_is_told();
    a_new_client_attaches();
    acting_keeps_what_is_told();
}

/// Whatever is painted, each window of the client stays the model's, and the packets handled those of the bytes given.
/// What a paint line needs of the client is there.
pub fn a_change_keeps_a_connection()
    ensures told { ChangingTells }
    ensures listens { ChangingListens }
    ensures fits { ChangingFits }
{
    a_change_keeps_a_client();
}
