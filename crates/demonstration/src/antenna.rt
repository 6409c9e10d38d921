// The antenna-change rule as tables: its declarations and its nodes.
use rule::{Command, DECLARATION_WORDS, Expression, Kind, NODE_WORDS, Operator, Sort};

// A declaration by its name, with its sort and its value.
#[derive(Clone, Copy)]
pub(crate) struct Declaration {
    pub(crate) name: &'static str,
    pub(crate) sort: Sort,
    pub(crate) value: u32,
}

// The declarations, each by its row.
pub(crate) const DECLARATIONS: [Declaration; 4] = [
    Declaration {
        name: "local",
        sort: Sort::Variable,
        value: 0,
    },
    Declaration {
        name: "hours",
        sort: Sort::Constant,
        value: 5,
    },
    Declaration {
        name: "minutes",
        sort: Sort::Constant,
        value: 45,
    },
    Declaration {
        name: "cutover",
        sort: Sort::Variable,
        value: 0,
    },
];

const LOCAL: u32 = 0;

pub(crate) const HOURS: u32 = 1;

const MINUTES: u32 = 2;

pub(crate) const CUTOVER: u32 = 3;

// The declarations as a table, a sort and a value each.
pub(crate) fn declared() -> [[u32; DECLARATION_WORDS]; 4] {
    DECLARATIONS.map(|declaration| [u32::from(declaration.sort), declaration.value])
}

// The row of an expression, which uses two words at most.
// `settled` has a function like it: the crate that both programs share, `wording`, is about words.
fn expression(kind: Expression, a: u32, b: u32) -> [u32; NODE_WORDS] {
    [u32::from(Kind::Expression(kind)), a, b, 0]
}

// name := local - (hours * 3600 + minutes * 60), with the name as a declaration's row: a kind and three words a node.
pub(crate) fn rule_of(name: u32) -> [[u32; NODE_WORDS]; 10] {
    [
        expression(Expression::Identifier, LOCAL, 0),
        expression(Expression::Identifier, HOURS, 0),
        expression(Expression::Value, 3600, 0),
        expression(Expression::Binary(Operator::Times), 1, 2),
        expression(Expression::Identifier, MINUTES, 0),
        expression(Expression::Value, 60, 0),
        expression(Expression::Binary(Operator::Times), 4, 5),
        expression(Expression::Binary(Operator::Plus), 3, 6),
        expression(Expression::Binary(Operator::Minus), 0, 7),
        [u32::from(Kind::Command(Command::Assign)), name, 8, 0],
    ]
}
