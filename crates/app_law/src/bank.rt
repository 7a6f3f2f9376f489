ghost use Rattle.std.specs.Prelude.{◌≡◌, ◌≤◌, ◌^◌, ◌++◌, length, if◌then◌else◌};
ghost use Rattle.std.specs.List.{All};
ghost use Rattle.app_law.specs.Banks.{IsOrder, takes, is_done, when_done, bank_order_of, bank_after, bank_answer, with_deposit};
ghost use Rattle.app_law.specs.Words.{words};

use crate::app::App;
use crate::bank_order::{BankOrder, bank_order};
use crate::decimal::write_decimal;
use record_codec::{AppKind, Output, Record, Shown};
use std::marker::Model;

/// The greatest balance.
const MOST_BALANCE: u64 = 1_000_000_000_000_000;

/// Eight accounts, numbered from 0, whose balances are at most 10^15. Contracts see it as the list of the balances.
///
/// `d A N` adds N to account A, and `t A B N` moves N from A to B, each where no balance would be passed or fall short.
#[derive(Debug, Drop)]
pub struct Bank {
    balances: [u64; 8],
}

impl Model for Bank {
    ghost use Rattle.std.specs.Prelude.{ℕ, List, ◌≤◌, ◌^◌};
    ghost use Rattle.std.specs.List.{All};

    ghost Value = { List ℕ };

    ghost view = { λ b. b.balances };

    ghost invariant = { λ b. All (λ n. n ≤ 10 ^ 15) b.balances };
}

impl App for Bank {
    /// The balances that stood before.
    type Undo = Bank;

    ghost use Rattle.std.specs.Prelude.{refl, replicate};
    ghost use Rattle.app_law.specs.Banks.{bank_next, bank_output, bank_shown};

    ghost restored = { λ undo _. undo };

    ghost noop_leaves = { λ _. refl };

    ghost noop_gives = { λ _. refl };

    ghost fresh_state = { λ _. replicate 8 0 };

    ghost next_state = { bank_next };

    ghost output_of = { bank_output };

    ghost shown_of = { bank_shown };

    fn fresh(_: AppKind) -> Bank {
        Bank { balances: [0; 8] }
    }

    fn apply(&mut self, rec: &Record) -> (Bank, Output) {
        let before = Bank {
            balances: self.balances,
        };
        let mut output = Output::new();
        if let Record::Data { body, .. } = rec {
            output.extend_from_slice(self.answer(body.as_slice()));
        }
        (before, output)
    }

    fn revert(&mut self, undo: Bank) {
        *self = undo;
    }

    fn show(&self) -> Shown {
        let mut shown = Shown::new();
        write_decimal(self.balances[0], &mut shown);
        for balance in &self.balances[1..] {
            shown.extend_from_slice(b" ");
            write_decimal(*balance, &mut shown);
        }
        shown
    }
}

impl Bank {
    /// Does what a body asks for, and says whether it was done.
    fn answer(&mut self, body: &[u8]) -> &'static [u8]
        ensures answer { result.now ≡ bank_answer self.old (bank_order_of (words body.now)) }
        ensures short { length result.now ≤ 3 }
        ensures state { self.new ≡ bank_after self.old (bank_order_of (words body.now)) }
    {
        match bank_order(body) {
            None => b"?\n",
            Some(order) if self.obey(order) => b"ok\n",
            Some(_) => b"no\n",
        }
    }

    /// Does what is asked for where no balance would be passed or fall short; else nothing changes.
    fn obey(&mut self, order: BankOrder) -> bool
        requires { IsOrder order }
        ensures done { result ≡ is_done self.old order }
        ensures state { self.new ≡ (if is_done self.old order then when_done self.old order else self.old) }
    {
        match order {
            BankOrder::Deposit { account, amount } => self.deposit(account, amount),
            BankOrder::Move { from, to, amount } => self.transfer(from, to, amount),
        }
    }

    fn deposit(&mut self, account: u8, amount: u64) -> bool
        requires { IsOrder (BankOrder.Deposit account amount) }
        ensures done { result ≡ takes self.old account amount }
        ensures state { self.new ≡ (if takes self.old account amount then with_deposit self.old account amount else self.old) }
    {
        let balance = self.balances[usize::from(account)] + amount;
        if balance > MOST_BALANCE {
            return false;
        }
        self.balances[usize::from(account)] = balance;
        true
    }

    fn transfer(&mut self, from: u8, to: u8, amount: u64) -> bool
        requires { IsOrder (BankOrder.Move from to amount) }
        ensures done { result ≡ is_done self.old (BankOrder.Move from to amount) }
        ensures state { self.new ≡ (if is_done self.old (BankOrder.Move from to amount) then when_done self.old (BankOrder.Move from to amount) else self.old) }
    {
        let Some(left) = self.balances[usize::from(from)].checked_sub(amount) else {
            return false;
        };
        if from == to {
            return true;
        }
        if !self.deposit(to, amount) {
            return false;
        }
        self.balances[usize::from(from)] = left;
        true
    }
}

#[cfg(test)]
impl Bank {
    /// A bank with these balances.
    pub fn at(balances: [u64; 8]) -> Bank
        requires { All (λ n. n ≤ 10 ^ 15) balances }
    {
        Bank { balances }
    }
}
