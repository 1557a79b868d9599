//! What came of the sends since the last record.

ghost use Rattle.std.specs.Prelude.{◌≡◌, ◌≤◌, ◌<◌, [], true, length, vec_capacity, vec_len, OnOk};
ghost use Rattle.std.specs.List.{list_all};
ghost use Rattle.journal_format.specs.Limits.{summary_limit};
ghost use Rattle.journal_format.specs.Spelling.{are_distinct};
ghost use Rattle.recorded_links.specs.Sending.{Fits, after_send, end_of, has_words, may_note, noted, place_of, taken_by};

use ev_types::Memory;
use journal_format::{SUMMARY_LIMIT, SendEnd, Summary};
use ports::SendAnswer;
use std::alloc::Global;

/// The summaries of the sends since the last record.
#[derive(Drop)]
pub struct Sends {
    /// One for each link that was sent to, in the order of the first sends, at most 257.
    pub summaries: Vec<Summary>,
    ghost few: { length summaries.items ≤ summary_limit },
    ghost words: { list_all has_words summaries.items ≡ true },
    ghost distinct: { are_distinct summaries.items ≡ true },
}

impl Sends {
    /// No sends. It takes no memory.
    pub fn fresh(alloc: Global) -> Sends
        ensures { result.summaries.items ≡ [] }
    {
        Sends {
            summaries: Vec::new(alloc),
        }
    }

    /// Where the summary of the link is, if it has one.
    fn place_of(&self, link: u64) -> Option<usize>
        ensures { result ≡ place_of link self.now.summaries.items }
    {
        self.summaries
            .iter()
            .position(|summary| summary.link == link)
    }

    /// Whether a send of so many bytes can be noted.
    pub(crate) fn may_note(&self, link: u64, count: usize) -> bool
        ensures { result ≡ may_note link count self.now.summaries.items }
    {
        match self.place_of(link) {
            Some(place) => {
                let taken = self.summaries[place].taken;
                taken.checked_add(count as u64).is_some()
            }
            None => self.summaries.len() < SUMMARY_LIMIT,
        }
    }

    /// Takes room for one summary more.
    pub(crate) fn reserve(&mut self) -> Result<(), Memory>
        ensures items { self.new.summaries.items ≡ self.old.summaries.items }
        ensures room { OnOk result (vec_len self.new.summaries < vec_capacity self.new.summaries) }
    {
        self.summaries.reserve(1)?;
        Ok(())
    }

    /// Notes how a send was answered.
    pub(crate) fn note(&mut self, link: u64, answer: SendAnswer)
        requires fits { Fits link (taken_by answer) self.old.summaries.items }
        requires room { vec_len self.old.summaries < vec_capacity self.old.summaries }
        ensures { self.new.summaries.items ≡ after_send link answer self.old.summaries.items }
    {
        match answer {
            SendAnswer::Memory => return,
            answer => {
                self.note_summary(link, taken_by(answer), end_of(answer));
                return;
            }
        }
    }

    /// Notes what came of one send.
    fn note_summary(&mut self, link: u64, taken: u64, end: SendEnd)
        requires fits { Fits link taken self.old.summaries.items }
        requires room { vec_len self.old.summaries < vec_capacity self.old.summaries }
        ensures { self.new.summaries.items ≡ noted
            (record { link = link; taken = taken; end = end }) self.old.summaries.items }
    {
        match self.place_of(link) {
            Some(place) => {
                let before = self.summaries[place];
                self.summaries[place] = Summary {
                    link: before.link,
                    taken: before.taken + taken,
                    end,
                };
            }
            None => {
                if self.summaries.len() < SUMMARY_LIMIT {
                    self.summaries.push_reserved(Summary { link, taken, end });
                }
            }
        }
    }

    /// Forgets all sends.
    pub(crate) fn clear(&mut self)
        ensures { self.new.summaries.items ≡ [] }
    {
        self.summaries.clear();
    }
}

/// The number of bytes that a send took.
fn taken_by(answer: SendAnswer) -> u64
    ensures { result ≡ taken_by answer }
{
    match answer {
        SendAnswer::Took { count } => count as u64,
        SendAnswer::Later | SendAnswer::Failed | SendAnswer::Memory => 0,
    }
}

fn end_of(answer: SendAnswer) -> SendEnd
    ensures { result ≡ end_of answer }
{
    match answer {
        SendAnswer::Took { count } if count > 0 => SendEnd::Took,
        SendAnswer::Failed => SendEnd::Failed,
        SendAnswer::Took { .. } | SendAnswer::Later | SendAnswer::Memory => SendEnd::Later,
    }
}
