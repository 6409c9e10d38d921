// Tables of nodes, a row of four words each: the deepest of 1,023 and 1,024 rows.
use rule::{Command, Expression, Kind, NODE_WORDS, ROW_LIMIT};

// A kind and three words, 0 where they are not used.
pub(crate) type Row = [u32; NODE_WORDS];

// The row of an expression, which uses two words at most.
// The demonstration has a function like it: the crate that both programs share, `wording`, is about words.
pub(crate) fn expression(kind: Expression, a: u32, b: u32) -> Row {
    [u32::from(Kind::Expression(kind)), a, b, 0]
}

// The row of a command.
pub(crate) fn command(kind: Command, a: u32, b: u32, c: u32) -> Row {
    [u32::from(Kind::Command(kind)), a, b, c]
}

// x := not not .. 0 with 1,021 nots: 1,023 rows, each the only child of the next.
pub(crate) fn nots() -> [Row; 1023] {
    let mut nodes = [expression(Expression::Value, 0, 0); 1023];
    for row in 1..1022 {
        nodes[row as usize] = expression(Expression::Not, row - 1, 0);
    }
    nodes[1022] = command(Command::Assign, 0, 1021, 0);
    nodes
}

// Where a sequence has what came before it.
#[derive(Clone, Copy)]
pub(crate) enum Nested {
    First,
    Second,
}

// x := 7 and 511 skips in 511 sequences, 1,024 rows.
pub(crate) fn sequences(nested: Nested) -> [Row; ROW_LIMIT] {
    let mut nodes = [command(Command::Skip, 0, 0, 0); ROW_LIMIT];
    nodes[0] = expression(Expression::Value, 7, 0);
    nodes[1] = command(Command::Assign, 0, 0, 0);
    for turn in 1..512 {
        let skip = 2 * turn;
        nodes[skip as usize + 1] = match nested {
            Nested::First => command(Command::Sequence, skip - 1, skip, 0),
            Nested::Second => command(Command::Sequence, skip, skip - 1, 0),
        };
    }
    nodes
}

// 341 ifs, 1,024 rows, and a row more than is taken. What came before is the then part of each, whose test is true.
pub(crate) fn ifs() -> [Row; ROW_LIMIT + 1] {
    let mut nodes = [command(Command::Skip, 0, 0, 0); ROW_LIMIT + 1];
    for turn in 0..341 {
        let test = 3 * turn + 1;
        nodes[test as usize] = expression(Expression::Value, 1, 0);
        nodes[test as usize + 2] = command(Command::If, test, test - 1, test + 1);
    }
    nodes
}
