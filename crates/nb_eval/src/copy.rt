use crate::given::Segment;
use nb_value::Tree;
use std::alloc::{AllocError, Global};

impl Tree for Segment {
    fn copy(&self, alloc: Global) -> Result<Segment, AllocError> {
        Ok(Segment {
            cell: self.cell.copy(alloc)?,
            inputs: self.inputs.copy(alloc)?,
            answers: self.answers.copy(alloc)?,
            pulls: self.pulls,
        })
    }

    fn same(&self, other: &Segment) -> bool {
        self.pulls == other.pulls
            && self.cell.same(&other.cell)
            && self.inputs.same(&other.inputs)
            && self.answers.same(&other.answers)
    }
}
