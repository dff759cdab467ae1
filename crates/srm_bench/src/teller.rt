//! What calls answer, as numbers.

use crate::digest::Digest;
use srm_agent::{Arm, Cause, Heard, Outcome, Ticked};
use srm_codec::Datagram;
use srm_names::{Drawop, Name, Page, PageMsg};

/// Numbers that are written one behind the other, as far as there is room. Behind the last place nothing is worked out.
#[derive(Drop)]
pub struct Teller<'a> {
    room: &'a mut [u64],
    count: usize,
}

impl<'a> Teller<'a> {
    pub fn new(room: &'a mut [u64]) -> Teller<'a> {
        Teller { room, count: 0 }
    }

    /// How many were written.
    pub fn count(&self) -> usize {
        self.count
    }

    fn is_full(&self) -> bool {
        self.count >= self.room.len()
    }

    pub fn tell(&mut self, number: u64) {
        if self.count < self.room.len() {
            self.room[self.count] = number;
            self.count += 1;
        }
    }

    /// The cause with its fault, how many timers were set, and a number made of them.
    pub fn tell_heard(&mut self, heard: &Heard) {
        self.tell(match heard.outcome {
            Outcome::Taken => 0,
            Outcome::Ignored(cause) => of_cause(cause),
        });
        self.tell_arms(heard.arms.as_slice());
    }

    /// How many were asked for and repaired, the timers, and each datagram.
    pub fn tell_ticked(&mut self, ticked: &Ticked) {
        if self.is_full() {
            return;
        }
        self.tell_names(ticked.asks.as_slice());
        self.tell_names(ticked.fixes.as_slice());
        self.tell_arms(ticked.arms.as_slice());
        self.tell(of_length(ticked.outs.as_slice().len()));
        for out in ticked.outs.as_slice() {
            self.tell(match &out.datagram {
                Datagram::Data(drawop) => of_name(drawop.name),
                Datagram::Repair { drawop, .. } => of_name(drawop.name),
                _ => 0,
            });
            self.tell_bytes(out.bytes.as_slice());
        }
    }

    /// The kind of the message, and what it names, with stamp and body.
    pub fn tell_message(&mut self, message: &Option<PageMsg>) {
        match message {
            None => self.tell(0),
            Some(PageMsg::Open(page)) => {
                self.tell(1);
                self.tell(of_page(*page));
            }
            Some(PageMsg::Draw(drawop)) => {
                self.tell(2);
                self.tell_drawop(drawop);
            }
            Some(PageMsg::Left(source)) => {
                self.tell(3);
                self.tell(u64::from(source.number()));
            }
            Some(PageMsg::Close) => self.tell(4),
        }
    }

    fn tell_drawop(&mut self, drawop: &Drawop) {
        self.tell(of_name(drawop.name));
        self.tell(drawop.stamp);
        self.tell_bytes(drawop.body.as_slice());
    }

    fn tell_arms(&mut self, arms: &[Arm]) {
        if self.is_full() {
            return;
        }
        let mut digest = Digest::new();
        digest.add_arms(arms);
        self.tell(of_length(arms.len()));
        self.tell(digest.value());
    }

    fn tell_names(&mut self, names: &[Name]) {
        if self.is_full() {
            return;
        }
        let mut digest = Digest::new();
        for name in names {
            digest.add(of_name(*name));
        }
        self.tell(of_length(names.len()));
        self.tell(digest.value());
    }

    fn tell_bytes(&mut self, bytes: &[u8]) {
        if self.is_full() {
            return;
        }
        let mut digest = Digest::new();
        for byte in bytes {
            digest.add(u64::from(*byte));
        }
        self.tell(of_length(bytes.len()));
        self.tell(digest.value());
    }
}

fn of_length(length: usize) -> u64 {
    u64::try_from(length).unwrap_or(u64::MAX)
}

fn of_cause(cause: Cause) -> u64 {
    let number = u64::from(cause.number());
    match cause {
        Cause::Decode(fault) => number + 256 * u64::from(fault as u8),
        _ => number,
    }
}

/// The eight bytes that spell the name.
pub fn of_name(name: Name) -> u64 {
    let stream = name.stream();
    let [p, q] = stream.page.number.to_be_bytes();
    let [a, b, c, d] = name.number().to_be_bytes();
    let creator = stream.page.creator.number();
    u64::from_be_bytes([stream.source.number(), creator, p, q, a, b, c, d])
}

fn of_page(page: Page) -> u64 {
    let [p, q] = page.number.to_be_bytes();
    u64::from_be_bytes([0, page.creator.number(), p, q, 0, 0, 0, 0])
}
