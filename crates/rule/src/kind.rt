// Kinds of node rows and sorts of declarations, by the numbers that the tables have for them.
ghost use Rattle.std.specs.Prelude.{◌≡◌};
ghost use Rattle.rule.specs.Kind.{Decodes, kind_number, DecodesSort, sort_number};

// What a binary expression does with its two operands.
#[derive(Clone, Copy, Debug, PartialEq, Eq)]
pub enum Operator {
    Plus,
    Minus,
    Times,
    Less,
    Equal,
    And,
    Or,
}

// Kinds of node rows that are expressions.
#[derive(Clone, Copy, Debug, PartialEq, Eq)]
pub enum Expression {
    Value,
    Identifier,
    Element,
    Binary(Operator),
    Not,
}

// Kinds of node rows that are commands.
#[derive(Clone, Copy, Debug, PartialEq, Eq)]
pub enum Command {
    Skip,
    Assign,
    AssignElement,
    Sequence,
    If,
    While,
}

// The kind of a node row.
#[derive(Clone, Copy, Debug, PartialEq, Eq)]
pub enum Kind {
    Expression(Expression),
    Command(Command),
}

// A number that is no kind of node row.
#[derive(Clone, Copy, Debug, PartialEq, Eq)]
pub struct UnknownKind(pub u32);

impl TryFrom<u32> for Kind {
    type Error = UnknownKind;

    ghost try_from_gives = { Decodes };

    // The kind of a number.
    fn try_from(number: u32) -> Result<Kind, UnknownKind> {
        match number {
            1 => Ok(Kind::Expression(Expression::Value)),
            2 => Ok(Kind::Expression(Expression::Identifier)),
            3 => Ok(Kind::Expression(Expression::Element)),
            4 => Ok(Kind::Expression(Expression::Binary(Operator::Plus))),
            5 => Ok(Kind::Expression(Expression::Binary(Operator::Minus))),
            6 => Ok(Kind::Expression(Expression::Binary(Operator::Times))),
            7 => Ok(Kind::Expression(Expression::Binary(Operator::Less))),
            8 => Ok(Kind::Expression(Expression::Binary(Operator::Equal))),
            9 => Ok(Kind::Expression(Expression::Binary(Operator::And))),
            10 => Ok(Kind::Expression(Expression::Binary(Operator::Or))),
            11 => Ok(Kind::Expression(Expression::Not)),
            16 => Ok(Kind::Command(Command::Skip)),
            17 => Ok(Kind::Command(Command::Assign)),
            18 => Ok(Kind::Command(Command::AssignElement)),
            19 => Ok(Kind::Command(Command::Sequence)),
            20 => Ok(Kind::Command(Command::If)),
            21 => Ok(Kind::Command(Command::While)),
            _ => Err(UnknownKind(number)),
        }
    }
}

impl From<Kind> for u32 {
    ghost from_gives = { λ kind number. number ≡ kind_number kind };

    // The number of a kind.
    fn from(kind: Kind) -> u32 {
        match kind {
            Kind::Expression(Expression::Value) => 1,
            Kind::Expression(Expression::Identifier) => 2,
            Kind::Expression(Expression::Element) => 3,
            Kind::Expression(Expression::Binary(Operator::Plus)) => 4,
            Kind::Expression(Expression::Binary(Operator::Minus)) => 5,
            Kind::Expression(Expression::Binary(Operator::Times)) => 6,
            Kind::Expression(Expression::Binary(Operator::Less)) => 7,
            Kind::Expression(Expression::Binary(Operator::Equal)) => 8,
            Kind::Expression(Expression::Binary(Operator::And)) => 9,
            Kind::Expression(Expression::Binary(Operator::Or)) => 10,
            Kind::Expression(Expression::Not) => 11,
            Kind::Command(Command::Skip) => 16,
            Kind::Command(Command::Assign) => 17,
            Kind::Command(Command::AssignElement) => 18,
            Kind::Command(Command::Sequence) => 19,
            Kind::Command(Command::If) => 20,
            Kind::Command(Command::While) => 21,
        }
    }
}

// The sort of a declaration.
#[derive(Clone, Copy, Debug, PartialEq, Eq)]
pub enum Sort {
    Constant,
    Variable,
    Array,
}

// A number that is no sort of declaration.
#[derive(Clone, Copy, Debug, PartialEq, Eq)]
pub struct UnknownSort(pub u32);

impl TryFrom<u32> for Sort {
    type Error = UnknownSort;

    ghost try_from_gives = { DecodesSort };

    // The sort of a number.
    fn try_from(number: u32) -> Result<Sort, UnknownSort> {
        match number {
            1 => Ok(Sort::Constant),
            2 => Ok(Sort::Variable),
            3 => Ok(Sort::Array),
            _ => Err(UnknownSort(number)),
        }
    }
}

impl From<Sort> for u32 {
    ghost from_gives = { λ sort number. number ≡ sort_number sort };

    // The number of a sort.
    fn from(sort: Sort) -> u32 {
        match sort {
            Sort::Constant => 1,
            Sort::Variable => 2,
            Sort::Array => 3,
        }
    }
}
