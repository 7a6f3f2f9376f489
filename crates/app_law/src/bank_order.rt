ghost use Rattle.std.specs.Prelude.{◌≡◌, ◌∷◌, ◌<◌, [], IfSome};
ghost use Rattle.app_law.specs.Banks.{IsOrder, account_in, bank_order_of};
ghost use Rattle.app_law.specs.Words.{words};

use crate::words::first_word;
use record_codec::decimal::number;

/// The most digits of an amount.
const MOST_DIGITS: usize = 12;

/// What a body asks of the bank.
#[derive(Clone, Copy, Debug)]
pub enum BankOrder {
    /// An amount comes in.
    Deposit { account: u8, amount: u64 },
    /// An amount goes from one account to another.
    Move { from: u8, to: u8, amount: u64 },
}

/// What a body asks for; None where it is of another form.
#[tactic(auto, using(crate::proofs::OrderLemmas::too_many))]
pub fn bank_order(body: &[u8]) -> Option<BankOrder>
    ensures order { result ≡ bank_order_of (words body.now) }
    ensures within { IfSome result IsOrder }
{
    let (verb, rest) = first_word(body);
    let (first, rest) = first_word(rest?);
    let (second, rest) = first_word(rest?);
    let Some(rest) = rest else {
        return deposit_order(verb, first, second);
    };
    let (third, None) = first_word(rest) else {
        return None;
    };
    move_order(verb, first, second, third)
}

fn deposit_order(verb: &[u8], to: &[u8], amount: &[u8]) -> Option<BankOrder>
    ensures order { result ≡ bank_order_of (verb.now ∷ to.now ∷ amount.now ∷ []) }
    ensures within { IfSome result IsOrder }
{
    if verb != b"d".as_slice() {
        return None;
    }
    Some(BankOrder::Deposit {
        account: account(to)?,
        amount: number(MOST_DIGITS, amount)?,
    })
}

fn move_order(verb: &[u8], from: &[u8], to: &[u8], amount: &[u8]) -> Option<BankOrder>
    ensures order { result ≡ bank_order_of (verb.now ∷ from.now ∷ to.now ∷ amount.now ∷ []) }
    ensures within { IfSome result IsOrder }
{
    if verb != b"t".as_slice() {
        return None;
    }
    Some(BankOrder::Move {
        from: account(from)?,
        to: account(to)?,
        amount: number(MOST_DIGITS, amount)?,
    })
}

/// An account is one digit from 0 to 7.
fn account(word: &[u8]) -> Option<u8>
    ensures account { result ≡ account_in word.now }
    ensures within { IfSome result (λ account. account < 8) }
{
    match word {
        [digit @ b'0'..=b'7'] => Some(digit - b'0'),
        _ => None,
    }
}
