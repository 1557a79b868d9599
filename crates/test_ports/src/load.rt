use crate::sockets::listen_on;
use load_links::LoadLinks;
use ports::{Links, ListenAnswer, PIECE_LIMIT, SendAnswer, Turn, Wants, What};
use std::alloc::{AllocError, Global};
use std::test::Fail;

/// A letter for each kind of turn that a load has in second 0.
fn first_letter(what: What) -> &'static str {
    match what {
        What::Opened { link: 0 } => "o",
        What::Read { link: 0, .. } => "r",
        What::Ended { link: 0 } => "e",
        What::Stopped => "s",
        _ => "?",
    }
}

/// The same in second 1, with capital letters.
fn second_letter(what: What) -> &'static str {
    match what {
        What::Read { link: 0, .. } => "R",
        What::Ended { link: 0 } => "E",
        What::Stopped => "S",
        _ => "?",
    }
}

fn letter(turn: Turn) -> &'static str {
    match turn.secs {
        0 => first_letter(turn.what),
        1 => second_letter(turn.what),
        _ => "?",
    }
}

/// What the turns of a load are: a letter for each, and all bytes that were read.
#[derive(Drop)]
struct Turns {
    letters: String,
    bytes: Vec<u8>,
}

impl Turns {
    /// Adds a turn, after which the buffer of the links is `buf`.
    fn put(&mut self, turn: Turn, buf: &[u8]) -> Result<(), AllocError> {
        self.letters.push_str(letter(turn))?;
        match turn.what {
            What::Read { count, .. } => {
                let (bytes, _) = buf.split_at(count.min(buf.len()));
                self.bytes.extend_from_slice(bytes)
            }
            _ => Ok(()),
        }
    }

    /// Adds the next `count` turns of a load.
    fn take(
        &mut self,
        alloc: Global,
        links: &mut LoadLinks,
        buf: &mut [u8],
        count: u64,
    ) -> Result<(), AllocError> {
        let wants = Wants::fresh(alloc);
        for _ in 0..count {
            if buf.len() == PIECE_LIMIT {
                let turn = links.next(alloc, &wants, buf);
                self.put(turn, buf)?;
            }
        }
        Ok(())
    }

    /// Whether the turns are these.
    fn are(&self, letters: &str) -> bool {
        self.letters.as_str() == letters
    }

    /// Whether the bytes are those of the digits.
    fn have_bytes(&self, alloc: Global, digits: &str) -> bool {
        match hex::encode(alloc, self.bytes.as_slice()) {
            Ok(bytes) => bytes.as_str() == digits,
            Err(_) => false,
        }
    }
}

/// Plays the first `count` turns of a load.
fn play(
    alloc: Global,
    links: &mut LoadLinks,
    turns: &mut Turns,
    count: u64,
) -> Result<(), AllocError> {
    let mut buf = vec![in alloc; 0; 65_536]?;
    turns.take(alloc, links, buf.as_mut_slice(), count)
}

/// Whether the first `count` turns of a load are these, and their bytes those of the digits.
fn gives(alloc: Global, links: &mut LoadLinks, count: u64, letters: &str, digits: &str) -> bool {
    let mut turns = Turns {
        letters: String::new(alloc),
        bytes: Vec::new(alloc),
    };
    let played = play(alloc, links, &mut turns, count).is_ok();
    played && turns.are(letters) && turns.have_bytes(alloc, digits)
}

/// The bytes of nine events of second 0, two of second 1 and a query.
const ALL_DIGITS: &str = "000000133211080012026f6b1a0273322202683868f40c\
    00000019321708001208637269746963616c1a0273332202683168f804\
    000000133211080012026f6b1a0273302202683368b604\
    000000133211080012026f6b1a0273322202683368a209\
    000000133211080012026f6b1a0273342202683568c603\
    00000019321708001208637269746963616c1a0273312202683968bc04\
    000000133211080012026f6b1a0273312202683468ea0e\
    000000133211080012026f6b1a02733122026834689c01\
    000000133211080012026f6b1a0273332202683968b40d\
    000000133211080112026f6b1a0273332202683668d806\
    000000133211080112026f6b1a0273342202683568e008\
    000000082a060a0474727565";

#[test]
fn a_load_gives_its_turns(rt: HostRuntime) -> Result<(), Fail> {
    let mut links = LoadLinks::fresh(rt.alloc(), 11, 7)?;
    let answer = listen_on(rt.alloc(), &mut links, "h:1");
    assert!(rt; answer == ListenAnswer::Ready { secs: 0 });
    assert!(rt; gives(rt.alloc(), &mut links, 16, "orrrrrrrrrRRRESS", ALL_DIGITS));
    Ok(())
}

/// Whether the bytes of the text are taken whole, and `replies` replies were counted after it.
fn is_counted(alloc: Global, links: &mut LoadLinks, text: &str, replies: u64) -> bool {
    let count = text.len();
    !text.is_empty()
        && links.send(alloc, 0, text.as_bytes()) == (SendAnswer::Took { count })
        && links.replies() == replies
}

#[test]
fn a_load_counts_its_replies(rt: HostRuntime) -> Result<(), Fail> {
    let mut links = LoadLinks::fresh(rt.alloc(), 1, u64::MAX)?;
    let digits = "000000133211080012026f6b1a0273332202683868f40b000000082a060a0474727565";
    assert!(rt; gives(rt.alloc(), &mut links, 5, "orres", digits));
    let replies = "\0\0\0\x02\x10\x01\0\0\0\x02\x10\x01\0\0\0\x02\x10";
    assert!(rt; is_counted(rt.alloc(), &mut links, replies, 2));
    assert!(rt; is_counted(rt.alloc(), &mut links, "\x01", 3));
    Ok(())
}
