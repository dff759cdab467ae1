//! What goes on, as short as the title of a window.

use crate::tally::Activity;
use srm_wire::Losses;
use std::fmt;

/// What goes on, in 80 characters at most.
#[derive(Clone, Copy, Debug, PartialEq, Eq)]
pub struct Title(pub Activity);

impl fmt::Display for Title {
    fn fmt<W: fmt::Write>(&self, f: &mut fmt::Formatter<W>) -> fmt::Result {
        let it = self.0;
        write!(f, "srm {}/{}, ", it.heard, it.others)?;
        write!(f, "missing {}, ", Brief(it.missing as u64))?;
        write!(f, "in {}, out {}, ", Brief(it.came), Brief(it.sent))?;
        write!(
            f,
            "asked {}, repaired {}, ",
            Brief(it.requests),
            Brief(it.repairs)
        )?;
        write!(f, "lost {}", Brief(sum_of(it.losses)))
    }
}

// A number in four characters at most: from 10,000 on in thousands, millions and so on, rounded down.
#[derive(Clone, Copy, Debug, PartialEq, Eq)]
struct Brief(u64);

impl fmt::Display for Brief {
    fn fmt<W: fmt::Write>(&self, f: &mut fmt::Formatter<W>) -> fmt::Result {
        if self.0 < 10_000 {
            return write!(f, "{}", self.0);
        }
        let mut number = self.0 / 1_000;
        for unit in ["k", "M", "G", "T", "P"] {
            if number < 1_000 {
                return write!(f, "{number}{unit}");
            }
            number /= 1_000;
        }
        write!(f, "{number}E")
    }
}

fn sum_of(losses: Losses) -> u64 {
    losses
        .no_way
        .saturating_add(losses.denied)
        .saturating_add(losses.too_long)
        .saturating_add(losses.no_room)
        .saturating_add(losses.port_closed)
}
