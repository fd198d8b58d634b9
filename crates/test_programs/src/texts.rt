//! Descriptions, and the reports that are due of them.

/// A counter of three into a sink of three, over a channel with its capacity.
pub(crate) const COUNTER: &str = "version = 1

[[process]]
name = \"src\"
kind = \"count\"
args = [1, 3]

[[process]]
name = \"snk\"
kind = \"sink\"
args = [3]

[[channel]]
name = \"c0\"
from = \"src\"
to = \"snk\"
capacity = 1
";

/// Parks's case: a copy into a weave that reads one side first, so that the other side has to grow.
pub(crate) const COPIED_AND_WOVEN: &str = "version = 1

[[process]]
name = \"src\"
kind = \"count\"
args = [1, 3]

[[process]]
name = \"cp\"
kind = \"copy\"

[[process]]
name = \"wv\"
kind = \"weave\"
args = [3, 3]

[[process]]
name = \"snk\"
kind = \"sink\"
args = [6]

[[channel]]
name = \"c0\"
from = \"src\"
to = \"cp\"

[[channel]]
name = \"c1\"
from = \"cp\"
to = \"wv\"

[[channel]]
name = \"c2\"
from = \"cp\"
out = 1
to = \"wv\"
in = 1

[[channel]]
name = \"c3\"
from = \"wv\"
to = \"snk\"
";

/// An adder with its sums fed back through a copy.
pub(crate) const RUNNING_SUMS: &str = "version = 2

[[process]]
name = \"s\"
kind = \"count\"
args = [1, 3]

[[process]]
name = \"ad\"
kind = \"add\"

[[process]]
name = \"cp\"
kind = \"copy\"

[[process]]
name = \"snk\"
kind = \"sink\"
args = [3]

[[channel]]
name = \"c0\"
from = \"s\"
to = \"ad\"

[[channel]]
name = \"c1\"
from = \"cp\"
to = \"ad\"
in = 1
tokens = [0]

[[channel]]
name = \"c2\"
from = \"ad\"
to = \"cp\"

[[channel]]
name = \"c3\"
from = \"cp\"
out = 1
to = \"snk\"
";

/// Parks's case, with the stream of the weave.
pub(crate) const WOVEN: &str = "end deadlock
process src stopped steps 4
process cp reads c0 steps 9
process wv reads c1 steps 12
process snk stopped steps 7
channel c0 put 3 left 0 capacity 1
channel c1 put 3 left 0 capacity 1
channel c2 put 3 left 0 capacity 2
channel c3 put 6 left 0 capacity 1
grew c2 2
entries 33
stream c3 1 2 3 1 2 3
";

/// Running sums, with the stream of those that come back.
pub(crate) const SUMS_BACK: &str = "end deadlock
process s stopped steps 4
process ad reads c0 steps 9
process cp reads c2 steps 9
process snk stopped steps 4
channel c0 put 3 left 0 capacity 1
channel c1 put 3 left 1 capacity 1
channel c2 put 3 left 0 capacity 1
channel c3 put 3 left 0 capacity 1
entries 26
stream c1 0 1 3 6
";
