ghost use Rattle.std.specs.Prelude.{◌≡◌, None, Some, IfOk, MatchResult};
ghost use Rattle.std.specs.List.{AllByRecursion};
ghost use Rattle.net_model.specs.Pasts.{past_of, sent};
ghost use Rattle.msg_wire.specs.Inputs.{IsInputOf};
ghost use Rattle.msg_wire.specs.Steps.{AreValidMessages};
ghost use Rattle.msg_wire.specs.Valid.{IsValidConfig};
ghost use Rattle.world.specs.Playing.{history_of, play_fault, input_fault, message_fault, length_fault, entries_of};
ghost use Rattle.world.specs.inside.PlayerSteps.{played_of};
ghost use Rattle.world.specs.PlayErrors.{IsRefusal};
ghost use Rattle.runs.specs.Runs.{IsRun};

use crate::errors::PlayError;
use crate::player::Player;
use msg_wire::{Config, Input};
use net_model::History;
use std::alloc::Global;

/// The greatest number of entries of a history.
const MOST_ENTRIES: usize = 200_000;

/// Plays the inputs of a script, one after another, and gives the history that they make, which is a run, and whose messages
/// are valid.
///
/// An error other than want of memory is of the first input that is refused: `NoMessage` where it delivers or gives up a
/// message that was not sent yet, else `TooLong` where it would bring the entries past 200,000. Without want of memory
/// a history comes exactly where no input is refused.
///
/// The cost is linear in what the steps read, send and show.
pub fn play(alloc: Global, cfg: &Config, inputs: &[Input]) -> Result<History, PlayError>
    requires valid { IsValidConfig cfg.now }
    requires inputs { AllByRecursion (IsInputOf cfg.now) inputs.now }
    ensures history { IfOk result (λ history. history ≡ history_of cfg.now inputs.now) }
    ensures run { IfOk result (IsRun cfg.now) }
    ensures messages { IfOk result (λ history. AreValidMessages (sent (past_of history))) }
    ensures refused { MatchResult result (λ _. play_fault cfg.now inputs.now ≡ None) (IsRefusal cfg.now inputs.now) }
{
    let mut player = Player::new(alloc, cfg)?;
    for (at, input) in inputs.iter().enumerate() {
        judge(&player, at, input)?;
        player = player.play(alloc, input)?;
    }
    Ok(player.into_history())
}

/// Whether an input may be played, and why not: first that its message was not sent, then the length.
fn judge(player: &Player, at: usize, input: &Input) -> Result<(), PlayError>
    ensures { MatchResult result (λ _. input_fault at (played_of player.now) input.now ≡ None) (λ fault. input_fault at (played_of player.now) input.now ≡ Some fault) }
{
    judge_message(player, at, input)?;
    judge_length(player, at, input)
}

fn judge_message(player: &Player, at: usize, input: &Input) -> Result<(), PlayError>
    ensures { MatchResult result (λ _. message_fault at (played_of player.now) input.now ≡ None) (λ fault. message_fault at (played_of player.now) input.now ≡ Some fault) }
{
    match input {
        Input::Deliver { number } | Input::Lose { number } => {
            let sent = player.sent() as u64;
            if *number < sent {
                Ok(())
            } else {
                Err(PlayError::NoMessage {
                    at,
                    number: *number,
                    sent,
                })
            }
        }
        _ => Ok(()),
    }
}

fn judge_length(player: &Player, at: usize, input: &Input) -> Result<(), PlayError>
    ensures { MatchResult result (λ _. length_fault at (played_of player.now) input.now ≡ None) (λ fault. length_fault at (played_of player.now) input.now ≡ Some fault) }
{
    if player.entries().saturating_add(entries_of(input)) <= MOST_ENTRIES {
        Ok(())
    } else {
        Err(PlayError::TooLong { at })
    }
}

/// How many entries an input brings.
fn entries_of(input: &Input) -> usize
    ensures { result ≡ entries_of input.now }
{
    match input {
        Input::Lose { .. } => 0,
        Input::Drain { count } => *count as usize,
        _ => 1,
    }
}
