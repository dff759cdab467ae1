//! The scripts of `examples/`, as texts.

/// Three strokes. The second is lost.
pub const LOSS: &str =
    "members 2\ndraw 0 10 0.0 a line\ndraw 0 20 0.0 a circle\ndraw 0 30 0.0 an arrow\ntick 0 40\n\
    deliver 1 140 0\ndeliver 1 160 2\ngive 1 0\ngive 1 0\ngive 1 0\ntake 1 0\ntake 1 0\n\
    take 1 0\n";

/// Two strokes out of order, the second of them twice.
pub const REORDER: &str =
    "members 2\ndraw 0 10 0.0 first\ndraw 0 20 0.0 second\ntick 0 30\ndeliver 1 130 1\ngive 1 0\n\
    give 1 0\ndeliver 1 150 0\ndeliver 1 160 1\ngive 1 0\ngive 1 0\ngive 1 0\n";

/// A loss and its repair.
pub const REPAIR: &str =
    "members 2\ntimers\ndraw 0 1 0.0 a\ndraw 0 2 0.0 b\ntick 0 3\ndeliver 1 100 0\n\
    tick 0 1000000\ndeliver 1 1000100 2\ntick 1 1200100\ndeliver 0 1200200 3\ntick 0 1300200\n\
    deliver 1 1300300 5\ngive 1 0\ngive 1 0\ngive 1 0\ngive 1 0\n";

/// One leaves, and another member repairs what it drew.
pub const LEAVING: &str =
    "members 3\ntimers\ndraw 0 1 0.0 a\ndraw 0 2 0.0 b\ndraw 0 3 0.0 c\ntick 0 4\nleave 0 20\n\
    tick 0 21\ndeliver 2 30 0\ndeliver 2 31 1\ndeliver 2 32 2\ndeliver 1 30 0\ndeliver 1 31 2\n\
    deliver 1 32 3\ngive 1 0\ngive 1 0\ngive 1 0\ntick 1 200030\ntick 1 200031\n\
    deliver 2 100 4\ntick 2 100099\ntick 2 100100\ndeliver 1 200100 5\ngive 1 0\ngive 1 0\n\
    give 1 0\ngive 1 0\n";

/// Strokes on two pages.
pub const PAGES: &str =
    "members 3\ndraw 0 10 0.0 title\ndraw 1 20 0.0 note\ndraw 1 30 1.0 sketch\ntick 1 40\n\
    tick 0 40\ndeliver 2 140 0\ndeliver 2 150 1\ndeliver 2 160 2\ngive 2 0\ngive 2 0\ngive 2 0\n\
    give 2 0\ngive 2 1\ngive 2 1\ngive 2 1\ntake 2 1\ntake 2 0\n";
