// One small function for each law: its contract is the law.

ghost use Rattle.nodes.specs.Laws.{ReadsBack, NeverBlank, OneNode, BytesStay, FirstIsFirst, RisingParts, FrontIsShortest, FrontJoins, FittingIsLongest, NumbersReadBack};

// A node's page says what it was made of.
pub fn reads_back() -> u8
    ensures { ReadsBack }
{
    0
}

// No node is blank.
pub fn never_blank() -> u8
    ensures { NeverBlank }
{
    0
}

// A page is of one node.
pub fn one_node() -> u8
    ensures { OneNode }
{
    0
}

// What a page of bytes says is of bytes.
pub fn bytes_stay() -> u8
    ensures { BytesStay }
{
    0
}

// The place that a look-up gives is the first that passes its test, and no other place is.
pub fn first_is_first() -> u8
    ensures { FirstIsFirst }
{
    0
}

// Where keys rise, the places of a key part them.
pub fn rising_parts() -> u8
    ensures { RisingParts }
{
    0
}

// The front that is counted is the shortest, and no other is.
pub fn front_is_shortest() -> u8
    ensures { FrontIsShortest }
{
    0
}

// The front of two nodes together is counted in two steps.
pub fn front_joins() -> u8
    ensures { FrontJoins }
{
    0
}

// What is appended is as much as fits.
pub fn fitting_is_longest() -> u8
    ensures { FittingIsLongest }
{
    0
}

// A page number's bytes say it again.
pub fn numbers_read_back() -> u8
    ensures { NumbersReadBack }
{
    0
}
