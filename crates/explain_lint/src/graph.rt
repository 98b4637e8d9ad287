//! Circles of a graph whose nodes are numbered.

use std::alloc::{AllocError, Global};

/// Arrows between the nodes of a graph, each from one node to another.
pub(crate) type Arrow = (usize, usize);

// What a search knows of a node.
#[derive(Clone, Copy)]
struct Node {
    // The first of its arrows, and how many have been followed.
    first: usize,
    followed: usize,
    // Its place in the order in which nodes were come to, from 1, and the lowest place that it leads back to.
    place: usize,
    lowest: usize,
    is_open: bool,
}

// A search for circles, by Tarjan's method: nodes are open while they may still be part of a circle.
#[derive(Drop)]
struct Search<'g> {
    arrows: &'g [Arrow],
    nodes: Vec<Node>,
    // The nodes that are under way, each come to from the one before it.
    path: Vec<usize>,
    open: Vec<usize>,
    reached: usize,
    circles: Vec<Vec<usize>>,
}

/// The circles among nodes below a count: the largest groups of which each leads to each other, and single nodes with
/// an arrow to themselves; the nodes of each in the order of their numbers. The arrows are in the order of their first
/// nodes. The time and the memory grow with the count of nodes and of arrows. The error is out of memory.
pub(crate) fn circles_of(
    alloc: Global,
    count: usize,
    arrows: &[Arrow],
) -> Result<Vec<Vec<usize>>, AllocError> {
    let mut search = Search {
        arrows,
        nodes: nodes_of(alloc, count, arrows)?,
        path: Vec::new(alloc),
        open: Vec::new(alloc),
        reached: 0,
        circles: Vec::new(alloc),
    };
    // Each node is come to once, and each arrow followed once.
    let most = count.saturating_mul(2).saturating_add(arrows.len());
    for number in 0..count {
        search.begin(number)?;
        for _ in 0..most {
            if !search.go_on(alloc)? {
                break;
            }
        }
    }
    let Search { circles, .. } = search;
    Ok(circles)
}

// The nodes, with the first arrow of each.
fn nodes_of(alloc: Global, count: usize, arrows: &[Arrow]) -> Result<Vec<Node>, AllocError> {
    let mut nodes = Vec::new(alloc);
    for number in 0..count {
        nodes.push(Node {
            first: arrows.partition_point(|arrow| arrow.0 < number),
            followed: 0,
            place: 0,
            lowest: 0,
            is_open: false,
        })?;
    }
    Ok(nodes)
}

impl Search<'_> {
    // Comes to a node, unless it was come to before.
    fn begin(&mut self, number: usize) -> Result<(), AllocError> {
        let Some(node) = self.nodes.get_mut(number) else {
            return Ok(());
        };
        if node.place != 0 {
            return Ok(());
        }
        self.reached = self.reached.saturating_add(1);
        node.place = self.reached;
        node.lowest = self.reached;
        node.is_open = true;
        self.path.push(number)?;
        self.open.push(number)?;
        Ok(())
    }

    // Follows the next arrow of the last node of the path, or leaves the node. False if the path is at its end.
    fn go_on(&mut self, alloc: Global) -> Result<bool, AllocError> {
        let Some(number) = self.path.last().copied() else {
            return Ok(false);
        };
        match self.next_of(number) {
            Some(next) => self.follow(number, next)?,
            None => self.leave(alloc, number)?,
        }
        Ok(true)
    }

    // The node at the end of the next arrow of a node.
    fn next_of(&mut self, number: usize) -> Option<usize> {
        let node = self.nodes.get_mut(number)?;
        let (from, to) = *self.arrows.get(node.first.saturating_add(node.followed))?;
        if from != number {
            return None;
        }
        node.followed = node.followed.saturating_add(1);
        Some(to)
    }

    // Follows an arrow.
    fn follow(&mut self, number: usize, next: usize) -> Result<(), AllocError> {
        match self.nodes.get(next) {
            Some(node) if node.place == 0 => self.begin(next),
            Some(node) if node.is_open => {
                let place = node.place;
                self.lower(number, place);
                Ok(())
            }
            _ => Ok(()),
        }
    }

    // A node leads back to a place.
    fn lower(&mut self, number: usize, place: usize) {
        if let Some(node) = self.nodes.get_mut(number) {
            node.lowest = node.lowest.min(place);
        }
    }

    // Leaves a node. If it leads to none before it, it and those behind it that are open are a group.
    fn leave(&mut self, alloc: Global, number: usize) -> Result<(), AllocError> {
        let _ = self.path.pop();
        let Some(node) = self.nodes.get(number) else {
            return Ok(());
        };
        let (place, lowest) = (node.place, node.lowest);
        if let Some(before) = self.path.last().copied() {
            self.lower(before, lowest);
        }
        if place == lowest {
            self.close(alloc, number)?;
        }
        Ok(())
    }

    // Closes the group whose first node this is, and keeps it if it is a circle.
    fn close(&mut self, alloc: Global, first: usize) -> Result<(), AllocError> {
        let mut group = Vec::new(alloc);
        for _ in 0..self.open.len() {
            let Some(number) = self.open.pop() else {
                break;
            };
            if let Some(node) = self.nodes.get_mut(number) {
                node.is_open = false;
            }
            group.push(number)?;
            if number == first {
                break;
            }
        }
        if group.len() > 1 || self.leads_to_itself(first) {
            group.sort_unstable();
            self.circles.push(group)?;
        }
        Ok(())
    }

    // Whether a node has an arrow to itself.
    fn leads_to_itself(&self, number: usize) -> bool {
        let Some(node) = self.nodes.get(number) else {
            return false;
        };
        let behind = self.arrows.split_at(node.first.min(self.arrows.len())).1;
        behind
            .iter()
            .take(node.followed)
            .any(|arrow| arrow.1 == number)
    }
}
