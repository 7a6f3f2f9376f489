//! What holds of the clients of every run of a valid cluster, and of their records.
ghost use Rattle.runs.specs.Homes.{OneFirstPerShard, HomesEndWhereTheNextBegins, LaterHomesBeginLater, ClientsHold};
ghost use Rattle.safety_frame.specs.EveryRun.{OfEveryRun};
ghost use Rattle.safety_clients.specs.Homes.{BodiesAreSubmitted, HomesAreOnce, HomesAreLeftWhenGone, HomesGoInTurn};
ghost use Rattle.safety_clients.specs.Telling.{AppendsTell, AsksTell};
ghost use Rattle.safety_clients.specs.Records.{RecordsAreOfAHome};
ghost use Rattle.safety_clients.specs.Fates.{FatesTell};
ghost use Rattle.safety_clients.specs.Acks.{AcksTell};
ghost use Rattle.safety_clients.specs.Numbers.{NumbersAreInOrder};
ghost use Rattle.safety_clients.specs.Answers.{AsksAreAnswered};

/// A client's bodies are the first of those that were submitted to it.
pub fn bodies_are_submitted()
    ensures { OfEveryRun BodiesAreSubmitted }
{}

/// A client's homes differ, their first numbers don't fall, and none is past what is acknowledged.
pub fn homes_are_once()
    ensures { OfEveryRun HomesAreOnce }
{}

/// A home is left only when the client knows it to be gone, for one that isn't gone with the entry with which the home goes.
pub fn homes_are_left_when_gone()
    ensures { OfEveryRun HomesAreLeftWhenGone }
{}

/// So homes go in their order: with the entries with which a home is gone each earlier home is gone too.
pub fn homes_go_in_turn()
    ensures { OfEveryRun HomesGoInTurn }
{}

/// An Append goes to a home of the client, with its first number there, a number not below that one, and the body submitted.
pub fn appends_tell()
    ensures { OfEveryRun AppendsTell }
{}

/// So a client names one first number at a shard.
pub fn one_first_per_shard()
    ensures { OfEveryRun (λ cfg past. OneFirstPerShard past) }
{}

/// A replica's records of a client are of a home of it: their numbers run on from its first one there, each with the body submitted.
pub fn records_are_of_a_home()
    ensures { OfEveryRun RecordsAreOfAHome }
{}

/// An AskFate goes to a home of the client, with its first number there, and a number not below that one and at most the acknowledged count.
pub fn asks_tell()
    ensures { OfEveryRun AsksTell }
{}

/// A Fate goes to a client from a gone home of it, and tells the number after the client's covered records there.
pub fn fates_tell()
    ensures { OfEveryRun FatesTell }
{}

/// A client's covered records at a home that it left have the numbers from its first one there to the first one at the next home.
pub fn homes_end_where_the_next_begins()
    ensures { OfEveryRun HomesEndWhereTheNextBegins }
{}

/// Its records at the next home stand at locals that weren't covered as the home went.
pub fn later_homes_begin_later()
    ensures { OfEveryRun LaterHomesBeginLater }
{}

/// The law of clients.
pub fn clients_hold()
    ensures { OfEveryRun ClientsHold }
{}

/// An Ack tells a client a position at which some node has confirmed its record of that number.
pub fn acks_tell()
    ensures { OfEveryRun AcksTell }
{}

/// Of a client's covered records the numbers compare as the positions do, and those of the first covered positions are 0, 1, 2 and so on.
pub fn numbers_are_in_order()
    ensures { OfEveryRun NumbersAreInOrder }
{}

/// A replica with a gone shard to which an AskFate comes answers it, with a Fate or with an Ack of the number that was asked for.
pub fn asks_are_answered()
    ensures { OfEveryRun AsksAreAnswered }
{}
