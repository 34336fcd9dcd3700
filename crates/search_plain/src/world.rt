//! Where a search stands: what was entered, what holds, and what was given up.
use crate::draft::{Draft, put_node, put_row};
use crate::marks::{is_marked, mark, mark_parts};
use crate::node::Node;
use crate::row::{Head, Row};
use std::alloc::{AllocError, Global};

/// A forall: the number of the assertion that it came with, and its place there.
#[derive(Clone, Copy)]
pub(crate) struct Forall {
    pub(crate) draft: usize,
    pub(crate) index: usize,
}

/// A forall and a term for each of its variables.
#[derive(Clone, Copy)]
pub(crate) struct Instance {
    pub(crate) forall: usize,
    pub(crate) tuple: [Option<usize>; 2],
}

/// A part of a disjunction that was given up.
#[derive(Clone, Copy, PartialEq, Eq)]
pub(crate) struct Struck {
    pub(crate) node: usize,
    pub(crate) place: usize,
}

/// All of it. The numbers of terms, formulas and foralls are their places.
#[derive(Drop)]
pub(crate) struct World {
    pub(crate) rows: Vec<Row>,
    pub(crate) nodes: Vec<Node>,
    pub(crate) foralls: Vec<Forall>,
    /// For each formula whether it is asserted.
    pub(crate) asserted: Vec<bool>,
    /// The formulas that were given up.
    pub(crate) refuted: Vec<usize>,
    pub(crate) struck: Vec<Struck>,
    pub(crate) done: Vec<Instance>,
    pub(crate) rounds: usize,
}

impl World {
    /// True and false alone.
    pub(crate) fn new(alloc: Global) -> Result<World, AllocError> {
        let mut rows = Vec::new(alloc);
        for head in [Head::True, Head::False] {
            rows.push(Row {
                head,
                args: [None, None],
            })?;
        }
        Ok(World {
            rows,
            nodes: Vec::new(alloc),
            foralls: Vec::new(alloc),
            asserted: Vec::new(alloc),
            refuted: Vec::new(alloc),
            struck: Vec::new(alloc),
            done: Vec::new(alloc),
            rounds: 0,
        })
    }

    /// A copy of all of it.
    pub(crate) fn copy(&self) -> Result<World, AllocError> {
        Ok(World {
            rows: self.rows.clone()?,
            nodes: self.nodes.clone()?,
            foralls: self.foralls.clone()?,
            asserted: self.asserted.clone()?,
            refuted: self.refuted.clone()?,
            struck: self.struck.clone()?,
            done: self.done.clone()?,
            rounds: self.rounds,
        })
    }

    /// The formula is asserted, and so are the parts of each conjunction that is.
    pub(crate) fn assert(&mut self, root: usize) {
        mark(&mut self.asserted, Some(root));
        for number in (0..self.nodes.len()).rev() {
            if !is_marked(self.asserted.as_slice(), number) {
                continue;
            }
            if let Some(Node::Each(parts)) = self.nodes.get(number) {
                mark_parts(&mut self.asserted, parts);
            }
        }
    }

    /// The part of a disjunction is given up.
    pub(crate) fn strike(&mut self, struck: Struck, part: usize) -> Result<(), AllocError> {
        self.struck.push(struck)?;
        self.refuted.push(part)?;
        Ok(())
    }

    /// The reached rows of an assertion become terms, a variable that of its place in the tuple: the number of each.
    fn enter_rows(
        &mut self,
        alloc: Global,
        rows: &[Row],
        reached: &[bool],
        tuple: &[Option<usize>; 2],
    ) -> Result<Vec<usize>, AllocError> {
        let mut terms = Vec::new(alloc);
        for (row, stands) in rows.iter().zip(reached.iter()) {
            let term = match row.head {
                _ if !*stands => 0,
                Head::X => tuple[0].unwrap_or(0),
                Head::Y => tuple[1].unwrap_or(0),
                head => {
                    let args = [
                        moved(terms.as_slice(), row.args[0]),
                        moved(terms.as_slice(), row.args[1]),
                    ];
                    put_row(&mut self.rows, Row { head, args })?
                }
            };
            terms.push(term)?;
        }
        Ok(terms)
    }

    /// The reached foralls of an assertion get the next numbers: the number of each.
    fn enter_foralls(
        &mut self,
        alloc: Global,
        number: usize,
        draft: &Draft,
        reached: &[bool],
    ) -> Result<Vec<usize>, AllocError> {
        let mut numbers = Vec::new(alloc);
        for index in 0..draft.foralls.len() {
            numbers.push(self.foralls.len())?;
            if has_forall(draft.nodes.as_slice(), reached, index) {
                self.foralls.push(Forall {
                    draft: number,
                    index,
                })?;
            }
        }
        Ok(numbers)
    }

    /// The formula over terms, foralls and formulas with new numbers is put, if it does not stand: its number.
    fn enter_node(
        &mut self,
        node: &Node,
        terms: &[usize],
        foralls: &[usize],
        numbers: &[usize],
    ) -> Result<usize, AllocError> {
        let entered = match node {
            Node::Equal {
                positive,
                left,
                right,
            } => {
                let (one, other) = (at(terms, *left), at(terms, *right));
                Node::Equal {
                    positive: *positive,
                    left: one.min(other),
                    right: one.max(other),
                }
            }
            Node::Atom { positive, term } => Node::Atom {
                positive: *positive,
                term: at(terms, *term),
            },
            Node::Each([a, b, c]) => {
                Node::Each([moved(numbers, *a), moved(numbers, *b), moved(numbers, *c)])
            }
            Node::Either([a, b, c]) => {
                Node::Either([moved(numbers, *a), moved(numbers, *b), moved(numbers, *c)])
            }
            Node::Forall(index) => Node::Forall(at(foralls, *index)),
        };
        put_node(&mut self.nodes, entered)
    }

    /// What the root reaches is entered over the tuple, in the order of the assertion: the number of the root.
    pub(crate) fn enter(
        &mut self,
        alloc: Global,
        number: usize,
        draft: &Draft,
        root: usize,
        tuple: &[Option<usize>; 2],
    ) -> Result<usize, AllocError> {
        let reached = draft.reached_nodes(alloc, root)?;
        let rows = draft.reached_rows(alloc, reached.as_slice())?;
        let terms = self.enter_rows(alloc, draft.rows.as_slice(), rows.as_slice(), tuple)?;
        let foralls = self.enter_foralls(alloc, number, draft, reached.as_slice())?;
        let mut numbers = Vec::new(alloc);
        for (node, stands) in draft.nodes.iter().zip(reached.iter()) {
            let mut entered = 0;
            if *stands {
                entered = self.enter_node(
                    node,
                    terms.as_slice(),
                    foralls.as_slice(),
                    numbers.as_slice(),
                )?;
            }
            numbers.push(entered)?;
        }
        self.asserted.resize(self.nodes.len(), false)?;
        Ok(at(numbers.as_slice(), root))
    }
}

/// The number at a place.
pub(crate) fn at(numbers: &[usize], place: usize) -> usize {
    numbers.get(place).copied().unwrap_or(0)
}

/// The number at a place, where there is one.
fn moved(numbers: &[usize], place: Option<usize>) -> Option<usize> {
    match place {
        Some(place) => Some(at(numbers, place)),
        None => None,
    }
}

/// Whether one of the reached formulas is the forall at this place.
fn has_forall(nodes: &[Node], reached: &[bool], index: usize) -> bool {
    for (node, stands) in nodes.iter().zip(reached.iter()) {
        if *stands && *node == Node::Forall(index) {
            return true;
        }
    }
    false
}
