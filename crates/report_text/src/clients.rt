//! What a client was given, and what it showed.

ghost use Rattle.std.specs.Prelude.{◌≡◌, ◌++◌, length, OnOk};
ghost use Rattle.runs.specs.Marks.{acks};
ghost use Rattle.report_text.specs.Clients.{client_line, ack_line};
ghost use Rattle.report_text.specs.inside.Submitting.{nothing_submitted, with_own_entry, submitted_lines};

use crate::text::{Put, put_counted};
use msg_wire::Mark;
use net_model::EntryRef;
use quota_table::Bytes;
use record_codec::Body;
use std::alloc::Global;
use std::marker::Model;

/// What one client was given and showed, over all its restarts.
#[derive(Drop)]
pub struct ClientMarks<'a> {
    /// The bodies that it was given, in order.
    submitted: Vec<&'a Body>,
    /// The number and the position of each acknowledgement, in order.
    acked: Vec<(u64, u64)>,
}

impl<'a> Model for ClientMarks<'a> {
    ghost use Rattle.std.specs.Prelude.{map};
    ghost use Rattle.report_text.specs.inside.Submitting.{Submitted};

    ghost Value = { Submitted };

    ghost view = { λ c. record { bodies = map (λ b. b.now) c.submitted.items; acked = c.acked.items } };
}

impl<'a> ClientMarks<'a> {
    /// It was given and showed nothing. It takes no memory.
    pub fn new(alloc: Global) -> ClientMarks<'a>
        ensures { result ≡ nothing_submitted }
    {
        ClientMarks {
            submitted: Vec::new(alloc),
            acked: Vec::new(alloc),
        }
    }

    /// One more entry.
    pub fn take(&mut self, entry: &EntryRef<'a>) -> Put
        ensures { OnOk result (self.new ≡ with_own_entry self.old entry.now) }
    {
        if let Some(body) = entry.body() {
            self.submitted.push(body)?;
        }
        put_acks(&mut self.acked, entry.marks())
    }

    /// How many bodies it was given.
    pub fn submitted(&self) -> usize
        ensures { result ≡ length self.now.bodies }
    {
        self.submitted.len()
    }

    /// How many acknowledgements it showed.
    pub fn acked(&self) -> usize
        ensures { result ≡ length self.now.acked }
    {
        self.acked.len()
    }

    /// Puts its lines at the end.
    pub fn write(&self, number: u64, text: &mut Bytes) -> Put
        ensures { OnOk result (text.new ≡ text.old ++ submitted_lines number self.now) }
    {
        put_client(text, number, self.submitted.len(), self.acked.len())?;
        for (of_client, position) in &self.acked {
            put_ack(text, number, *of_client, *position)?;
        }
        Ok(())
    }
}

/// Puts the acknowledgements among the marks at the end.
fn put_acks(acked: &mut Vec<(u64, u64)>, marks: &[Mark]) -> Put
    ensures { OnOk result (acked.new.items ≡ acked.old.items ++ acks marks.now) }
{
    for mark in marks {
        if let Mark::Ack { number, position } = mark {
            acked.push((*number, *position))?;
        }
    }
    Ok(())
}

#[tactic(auto, using(std::proofs::Common::append_assoc), unfolding(crate::specs::Clients::client_line))]
fn put_client(text: &mut Bytes, number: u64, submitted: usize, acked: usize) -> Put
    ensures { OnOk result (text.new ≡ text.old ++ client_line number submitted acked) }
{
    put_counted(text, b"client c", number)?;
    put_counted(text, b" submitted ", submitted as u64)?;
    put_counted(text, b" acked ", acked as u64)?;
    text.push(b'\n')
}

#[tactic(auto, using(std::proofs::Common::append_assoc), unfolding(crate::specs::Clients::ack_line))]
fn put_ack(text: &mut Bytes, number: u64, of_client: u64, position: u64) -> Put
    ensures { OnOk result (text.new ≡ text.old ++ ack_line number (of_client, position)) }
{
    put_counted(text, b"ack c", number)?;
    put_counted(text, b" ", of_client)?;
    put_counted(text, b" ", position)?;
    text.push(b'\n')
}
