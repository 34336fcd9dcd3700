//! Random formulas, each as a text and as what its text puts into a draft.
use crate::draft::{Draft, Quantified, put_node, put_row};
use crate::node::{Node, Parts};
use crate::random::Random;
use crate::row::{Head, Row};
use std::alloc::{AllocError, Global};

/// A term of a draft.
#[derive(Drop)]
struct Term {
    text: String,
    row: usize,
}

/// A formula of a draft, with its negation.
#[derive(Drop)]
pub(crate) struct Formula {
    pub(crate) text: String,
    pub(crate) node: usize,
    against: usize,
}

/// Who writes: at random, into a draft, with so many variables bound.
#[derive(Drop)]
pub(crate) struct Author {
    pub(crate) alloc: Global,
    pub(crate) random: Random,
    pub(crate) draft: Draft,
    pub(crate) variables: usize,
}

impl Author {
    /// A head without arguments, or a variable.
    fn leaf(&mut self) -> Head {
        let choice = self.random.below(6);
        match choice {
            0 => Head::A,
            1 => Head::B,
            2 => Head::C,
            3 if self.variables > 0 => Head::X,
            4 if self.variables > 1 => Head::Y,
            _ if self.variables > 0 => Head::X,
            _ => Head::A,
        }
    }

    /// The term of a head alone.
    fn leaf_term(&mut self, head: Head) -> Result<Term, AllocError> {
        let row = put_row(
            &mut self.draft.rows,
            Row {
                head,
                args: [None, None],
            },
        )?;
        Ok(Term {
            text: String::from_str(self.alloc, head.name())?,
            row,
        })
    }

    /// The term of a head over one term.
    fn over_one(&mut self, head: Head, arg: Term) -> Result<Term, AllocError> {
        let row = put_row(
            &mut self.draft.rows,
            Row {
                head,
                args: [Some(arg.row), None],
            },
        )?;
        let text = format!(in self.alloc; "({} {})", head.name(), arg.text)?;
        Ok(Term { text, row })
    }

    /// The term of a head over two terms.
    fn over_two(&mut self, head: Head, first: Term, second: Term) -> Result<Term, AllocError> {
        let row = put_row(
            &mut self.draft.rows,
            Row {
                head,
                args: [Some(first.row), Some(second.row)],
            },
        )?;
        let text = format!(in self.alloc; "({} {} {})", head.name(), first.text, second.text)?;
        Ok(Term { text, row })
    }

    /// A leaf at random.
    fn some_leaf(&mut self) -> Result<Term, AllocError> {
        let head = self.leaf();
        self.leaf_term(head)
    }

    /// A leaf, or a function of leaves.
    fn term(&mut self) -> Result<Term, AllocError> {
        let choice = self.random.below(6);
        let first = self.some_leaf()?;
        match choice {
            0 => self.over_one(Head::F, first),
            1 => self.over_one(Head::G, first),
            2 => {
                let second = self.some_leaf()?;
                self.over_two(Head::K, first, second)
            }
            _ => Ok(first),
        }
    }

    /// A formula by its node and that of its negation.
    fn formula(&mut self, text: String, node: Node, against: Node) -> Result<Formula, AllocError> {
        let node = put_node(&mut self.draft.nodes, node)?;
        let against = put_node(&mut self.draft.nodes, against)?;
        Ok(Formula {
            text,
            node,
            against,
        })
    }

    /// The atom of a term.
    fn atom_of(&mut self, term: Term) -> Result<Formula, AllocError> {
        let Term { text, row } = term;
        let positive = Node::Atom {
            positive: true,
            term: row,
        };
        let negative = Node::Atom {
            positive: false,
            term: row,
        };
        self.formula(text, positive, negative)
    }

    /// An equation of two terms.
    fn equation(&mut self) -> Result<Formula, AllocError> {
        let one = self.term()?;
        let other = self.term()?;
        let text = format!(in self.alloc; "(= {} {})", one.text, other.text)?;
        let (left, right) = (one.row, other.row);
        let positive = Node::Equal {
            positive: true,
            left,
            right,
        };
        let negative = Node::Equal {
            positive: false,
            left,
            right,
        };
        self.formula(text, positive, negative)
    }

    /// An equation or an atom.
    fn atom(&mut self) -> Result<Formula, AllocError> {
        match self.random.below(8) {
            0 => {
                let term = self.leaf_term(Head::Q)?;
                self.atom_of(term)
            }
            1 | 2 => {
                let arg = self.term()?;
                let term = self.over_one(Head::P, arg)?;
                self.atom_of(term)
            }
            3 => {
                let first = self.term()?;
                let second = self.term()?;
                let term = self.over_two(Head::R, first, second)?;
                self.atom_of(term)
            }
            _ => self.equation(),
        }
    }

    /// A literal.
    fn literal(&mut self) -> Result<Formula, AllocError> {
        let is_negated = self.random.below(5) < 2;
        let atom = self.atom()?;
        if is_negated {
            return denied(self.alloc, atom);
        }
        Ok(atom)
    }

    /// A disjunction of two or three formulas, or a conjunction of them.
    fn gathered(&mut self, parts: Vec<Formula>) -> Result<Formula, AllocError> {
        let is_each = self.random.below(4) == 0;
        let word = if is_each { "and" } else { "or" };
        let mut text = format!(in self.alloc; "({word}")?;
        let mut selves = [None; 3];
        let mut others = [None; 3];
        for (place, part) in parts.iter().enumerate() {
            text.push_str(" ")?;
            text.push_str(part.text.as_str())?;
            if let (Some(one), Some(other)) = (selves.get_mut(place), others.get_mut(place)) {
                *one = Some(part.node);
                *other = Some(part.against);
            }
        }
        text.push_str(")")?;
        if is_each {
            return self.formula(text, Node::Each(selves), Node::Either(others));
        }
        self.formula(text, Node::Either(selves), Node::Each(others))
    }

    /// An implication.
    fn implication(&mut self, one: Formula, other: Formula) -> Result<Formula, AllocError> {
        let text = format!(in self.alloc; "(=> {} {})", one.text, other.text)?;
        let itself = Node::Either([Some(one.against), Some(other.node), None]);
        let negation = Node::Each([Some(one.node), Some(other.against), None]);
        self.formula(text, itself, negation)
    }

    /// A connective of literals, or one literal.
    fn flat(&mut self) -> Result<Formula, AllocError> {
        let choice = self.random.below(5);
        let first = self.literal()?;
        if choice == 0 {
            return Ok(first);
        }
        let second = self.literal()?;
        if choice == 1 {
            return self.implication(first, second);
        }
        let mut parts = vec![in self.alloc; first, second]?;
        if choice == 2 {
            parts.push(self.literal()?)?;
        }
        self.gathered(parts)
    }

    /// A formula with two connectives at most below one another, and perhaps negations.
    pub(crate) fn any(&mut self) -> Result<Formula, AllocError> {
        let choice = self.random.below(6);
        let first = self.flat()?;
        match choice {
            0 => denied(self.alloc, first),
            1 => {
                let second = self.flat()?;
                self.implication(first, second)
            }
            2 => {
                let second = self.flat()?;
                let parts = vec![in self.alloc; first, second]?;
                self.gathered(parts)
            }
            _ => Ok(first),
        }
    }

    /// A pattern over the variable, or over both.
    fn pattern(&mut self, variable: Head, both: bool) -> Result<Term, AllocError> {
        let choice = self.random.below(5);
        let mut first = self.leaf_term(variable)?;
        if both {
            let second = self.leaf_term(Head::Y)?;
            return self.over_two(if choice < 3 { Head::K } else { Head::R }, first, second);
        }
        if choice == 0 {
            first = self.over_one(Head::G, first)?;
        }
        match choice {
            0 | 1 => self.over_one(Head::F, first),
            2 => self.over_one(Head::G, first),
            3 => {
                let second = self.some_leaf()?;
                self.over_two(Head::K, first, second)
            }
            _ => {
                let term = self.over_one(Head::P, first)?;
                let (text, row) = (term.text.clone()?, term.row);
                let _atom = self.atom_of(term)?;
                Ok(Term { text, row })
            }
        }
    }

    /// The patterns of a trigger, in which all variables are.
    fn trigger(&mut self) -> Result<Vec<Term>, AllocError> {
        let mut patterns = Vec::new(self.alloc);
        if self.variables == 2 && self.random.below(2) == 0 {
            patterns.push(self.pattern(Head::X, true)?)?;
            return Ok(patterns);
        }
        patterns.push(self.pattern(Head::X, false)?)?;
        if self.variables == 2 {
            patterns.push(self.pattern(Head::Y, false)?)?;
        }
        Ok(patterns)
    }

    /// Triggers of a forall, as their text and the rows of their patterns.
    fn triggers(&mut self) -> Result<(String, Vec<Vec<usize>>), AllocError> {
        let mut text = String::new(self.alloc);
        let mut triggers = Vec::new(self.alloc);
        let count = self.random.below(2).saturating_add(1);
        for _ in 0..count {
            text.push_str(" :pattern (")?;
            let mut rows = Vec::new(self.alloc);
            for pattern in self.trigger()? {
                text.push_str(pattern.text.as_str())?;
                text.push_str(" ")?;
                rows.push(pattern.row)?;
            }
            text.push_str(")")?;
            triggers.push(rows)?;
        }
        Ok((text, triggers))
    }

    /// A forall of one variable or two: its text and its node.
    fn forall(&mut self) -> Result<(String, usize), AllocError> {
        let is_double = self.random.below(3) == 0;
        let (variables, bound) = if is_double {
            (2, "(x U) (y U)")
        } else {
            (1, "(x U)")
        };
        self.variables = variables;
        let body = self.flat()?;
        let (patterns, triggers) = self.triggers()?;
        self.variables = 0;
        let index = self.draft.foralls.len();
        self.draft.foralls.push(Quantified {
            variables,
            body: body.node,
            triggers,
        })?;
        let node = put_node(&mut self.draft.nodes, Node::Forall(index))?;
        let text = format!(in self.alloc; "(forall ({bound}) (! {}{patterns}))", body.text)?;
        Ok((text, node))
    }

    /// A forall, alone or as the second part of a disjunction or an implication: its text and its node.
    pub(crate) fn with_forall(&mut self) -> Result<(String, usize), AllocError> {
        let choice = self.random.below(5);
        if choice > 1 {
            return self.forall();
        }
        let first = self.literal()?;
        let (text, forall) = self.forall()?;
        let (word, part) = if choice == 0 {
            ("or", first.node)
        } else {
            ("=>", first.against)
        };
        let parts: Parts = [Some(part), Some(forall), None];
        let node = put_node(&mut self.draft.nodes, Node::Either(parts))?;
        let whole = format!(in self.alloc; "({word} {} {text})", first.text)?;
        Ok((whole, node))
    }
}

/// The formula denied.
fn denied(alloc: Global, formula: Formula) -> Result<Formula, AllocError> {
    let text = format!(in alloc; "(not {})", formula.text)?;
    Ok(Formula {
        text,
        node: formula.against,
        against: formula.node,
    })
}
