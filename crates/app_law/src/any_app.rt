use crate::app::App;
use crate::bank::Bank;
use crate::kv::{Kv, KvUndo};
use crate::tally::Tally;
use record_codec::{AppKind, Output, Record, Shown};

/// The application of a cluster's kind.
#[derive(Debug, Drop)]
pub enum AnyApp {
    Tally(Tally),
    Bank(Bank),
    Kv(Kv),
}

/// What takes a record of it back.
#[derive(Debug, Drop)]
pub enum AnyUndo {
    Tally(Tally),
    Bank(Bank),
    Kv(KvUndo),
}

impl App for AnyApp {
    type Undo = AnyUndo;

    ghost use Rattle.app_law.specs.AnyApps.{any_fresh, any_next, any_output, any_shown, any_restored, any_next_noop, any_output_noop};

    ghost fresh_state = { any_fresh };

    ghost next_state = { any_next };

    ghost output_of = { any_output };

    ghost shown_of = { any_shown };

    ghost restored = { any_restored };

    ghost noop_leaves = { any_next_noop };

    ghost noop_gives = { any_output_noop };

    fn fresh(kind: AppKind) -> AnyApp {
        match kind {
            AppKind::Tally => AnyApp::Tally(Tally::fresh(kind)),
            AppKind::Bank => AnyApp::Bank(Bank::fresh(kind)),
            AppKind::Kv => AnyApp::Kv(Kv::fresh(kind)),
        }
    }

    #[inline(always)]
    fn apply(&mut self, rec: &Record) -> (AnyUndo, Output) {
        match self {
            AnyApp::Tally(tally) => {
                let (undo, output) = tally.apply(rec);
                (AnyUndo::Tally(undo), output)
            }
            AnyApp::Bank(bank) => {
                let (undo, output) = bank.apply(rec);
                (AnyUndo::Bank(undo), output)
            }
            AnyApp::Kv(kv) => {
                let (undo, output) = kv.apply(rec);
                (AnyUndo::Kv(undo), output)
            }
        }
    }

    /// An undo of another application changes nothing.
    fn revert(&mut self, undo: AnyUndo) {
        match undo {
            AnyUndo::Tally(undo) => {
                if let AnyApp::Tally(tally) = self {
                    tally.revert(undo);
                }
            }
            AnyUndo::Bank(undo) => {
                if let AnyApp::Bank(bank) = self {
                    bank.revert(undo);
                }
            }
            AnyUndo::Kv(undo) => {
                if let AnyApp::Kv(kv) = self {
                    kv.revert(undo);
                }
            }
        }
    }

    fn show(&self) -> Shown {
        match self {
            AnyApp::Tally(tally) => tally.show(),
            AnyApp::Bank(bank) => bank.show(),
            AnyApp::Kv(kv) => kv.show(),
        }
    }
}
