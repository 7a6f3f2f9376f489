use crate::item::DeskItem;
use crate::knows::Knows;
use crossbeam_queue::Pass;
use std::marker::Model;

/// The leave to use a desk, of which a contract says what it knows. It has no bytes.
///
/// The taking pass knows what was taken, and what the submitters that are back had submitted; a submitter's pass what it has
/// submitted.
#[derive(Drop)]
pub struct DeskPass {
    pub(crate) pass: Pass<DeskItem, Knows>,
}

impl Model for DeskPass {
    ghost use Rattle.std.specs.Prelude.{◌≡◌, ◌≤◌, []};
    ghost use Rattle.submit_desk.specs.Passes.{PassView};

    ghost Value = { PassView };

    ghost view = { λ p. record { desk = p.pass.table_id; knows = p.pass.me.0.client } };

    ghost invariant = { λ p. (p.pass.me.1 ≡ []) × (p.pass.me.0.client.next ≤ 8) };
}
