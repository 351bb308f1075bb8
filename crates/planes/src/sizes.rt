//! Tables of planes, `cells[key * nodes + owner]`: a plane for each key, and in it a number for each owner.

use crate::numbers::Number;
use std::alloc::AllocError;

#[derive(Clone, Copy)]
pub struct Size {
    pub nodes: usize,
    pub keys: usize,
}

/// The numbers of a table.
#[derive(Copy)]
pub struct Grid<'a, N: Number> {
    pub cells: &'a [N],
    pub size: Size,
}

impl<N: Number> Clone for Grid<'_, N> {
    fn clone(&self) -> Result<Self, AllocError> {
        Ok(*self)
    }
}
