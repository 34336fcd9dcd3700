//! A list of links, which contracts see as a list.
ghost use Rattle.std.specs.Prelude.{◌≡◌, ◌↔◌, [], ◌∷◌, length, slice_get, IfOk, IsTrue};

use crate::link::Link;
use graph_terms::Memory;
use std::alloc::Global;
use std::marker::Model;

/// Links in order.
#[derive(Debug, Drop)]
pub struct LinkList {
    links: Vec<Link>,
}

impl Model for LinkList {
    ghost use Rattle.std.specs.Prelude.{List};
    ghost use Rattle.match_paths.specs.declared.link.Link.{Link};

    ghost Value = { List Link };

    ghost view = { λ list. list.links.items };
}

impl LinkList {
    /// No links.
    pub fn new(alloc: Global) -> LinkList
        ensures { result ≡ [] }
    {
        LinkList {
            links: Vec::new(alloc),
        }
    }

    /// The link, and then those of the list.
    pub fn with_front(alloc: Global, link: Link, rest: &LinkList) -> Result<LinkList, Memory>
        ensures { IfOk result (λ list. list ≡ link ∷ rest.now) }
    {
        let mut links = Vec::new(alloc);
        links.push(link)?;
        links.extend_from_slice(rest.as_slice())?;
        Ok(LinkList { links })
    }

    pub fn as_slice(&self) -> &[Link]
        ensures { result.now ≡ self.now }
    {
        self.links.as_slice()
    }

    /// The first link, if there is one.
    pub fn first(&self) -> Option<Link>
        ensures { result ≡ slice_get self.now 0 }
    {
        self.links.as_slice().first().copied()
    }
}
