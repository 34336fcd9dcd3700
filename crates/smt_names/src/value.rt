//! What a term or a formula stands for.
ghost use Rattle.std.specs.Prelude.{◌≡◌};
ghost use Rattle.smt_names.specs.Value.{sort_of, row_of, self as own_node, complement, other, swapped};

/// What a term or a formula stands for in a formula under way.
#[derive(Clone, Copy, Debug, PartialEq, Eq)]
pub enum Value {
    /// A term: its row, and its sort, which is not 0.
    Term {
        row: u32,
        sort: u32,
    },
    /// A formula: its node, and the node of its complement, which it lacks where it holds a forall.
    Formula {
        itself: u32,
        complement: Option<u32>,
    },
}

impl Value {
    /// The sort: 0 of a formula.
    pub fn sort(&self) -> u32
        ensures { result ≡ sort_of self.now }
    {
        match self {
            Value::Term { sort, .. } => *sort,
            Value::Formula { .. } => 0,
        }
    }

    /// The row of a term.
    pub fn row(&self) -> u32
        ensures { result ≡ row_of self.now }
    {
        match self {
            Value::Term { row, .. } => *row,
            Value::Formula { .. } => 0,
        }
    }

    /// The node of a formula.
    pub fn node(&self) -> u32
        ensures { result ≡ own_node self.now }
    {
        match self {
            Value::Term { .. } => 0,
            Value::Formula { itself, .. } => *itself,
        }
    }

    /// The node of the complement, where there is one.
    pub fn complement(&self) -> Option<u32>
        ensures { result ≡ complement self.now }
    {
        match self {
            Value::Term { .. } => None,
            Value::Formula { complement, .. } => *complement,
        }
    }

    /// The node of the complement of a formula that has one.
    pub fn other(&self) -> u32
        ensures { result ≡ other self.now }
    {
        match self.complement() {
            None => 0,
            Some(complement) => complement,
        }
    }

    /// A formula and its complement, exchanged.
    pub fn swapped(&self) -> Value
        ensures { result ≡ swapped self.now }
    {
        Value::Formula {
            itself: self.other(),
            complement: Some(self.node()),
        }
    }
}
