ghost use Rattle.std.specs.Prelude.{◌≡◌, ◌↔◌, IfOk, IsTrue};

use crate::boxed::Boxed;
use crate::bytes::Bytes;
use crate::items::Items;
use crate::pairs::{Field, Pairs};
use crate::text::Text;
use crate::value::Value;
use std::alloc::{AllocError, Global};

/// What can be copied and told apart: a copy equals what it copies.
pub trait Tree {
    /// An equal value, in time and memory linear in it. It fails only without memory.
    fn copy(&self, alloc: Global) -> Result<Self, AllocError>
        ensures { IfOk result (λ v. v ≡ self.now) };

    /// Whether the two are one value. It takes no memory, and time linear in the smaller.
    fn same(&self, other: &Self) -> bool
        ensures { IsTrue result ↔ (self.now ≡ other.now) };
}

impl Tree for Text {
    fn copy(&self, alloc: Global) -> Result<Text, AllocError> {
        Text::copy(self, alloc)
    }

    fn same(&self, other: &Text) -> bool {
        Text::same(self, other)
    }
}

impl Tree for Bytes {
    fn copy(&self, alloc: Global) -> Result<Bytes, AllocError> {
        Bytes::copy(self, alloc)
    }

    fn same(&self, other: &Bytes) -> bool {
        Bytes::same(self, other)
    }
}

impl Tree for Value {
    fn copy(&self, alloc: Global) -> Result<Value, AllocError> {
        Value::copy(self, alloc)
    }

    fn same(&self, other: &Value) -> bool {
        Value::same(self, other)
    }
}

impl<T: Tree + Drop> Tree for Boxed<T> {
    fn copy(&self, alloc: Global) -> Result<Boxed<T>, AllocError> {
        Boxed::new(alloc, self.get().copy(alloc)?)
    }

    fn same(&self, other: &Boxed<T>) -> bool {
        self.get().same(other.get())
    }
}

impl<T: Tree + Drop> Tree for Option<T> {
    fn copy(&self, alloc: Global) -> Result<Option<T>, AllocError> {
        match self {
            None => Ok(None),
            Some(x) => Ok(Some(x.copy(alloc)?)),
        }
    }

    fn same(&self, other: &Option<T>) -> bool {
        match self {
            None => other.is_none(),
            Some(x) => match other {
                None => false,
                Some(y) => x.same(y),
            },
        }
    }
}

impl<T: Tree + Drop> Tree for Items<T> {
    fn copy(&self, alloc: Global) -> Result<Items<T>, AllocError> {
        let mut copies = Items::new(alloc);
        for item in self.as_slice() {
            copies.push(item.copy(alloc)?)?;
        }
        Ok(copies)
    }

    fn same(&self, other: &Items<T>) -> bool {
        let xs = self.as_slice();
        let ys = other.as_slice();
        if xs.len() != ys.len() {
            return false;
        }
        for i in 0..xs.len() {
            if !xs[i].same(&ys[i]) {
                return false;
            }
        }
        true
    }
}

impl<T: Tree + Drop> Tree for Field<T> {
    fn copy(&self, alloc: Global) -> Result<Field<T>, AllocError> {
        Ok(Field {
            name: self.name.copy(alloc)?,
            value: self.value.copy(alloc)?,
        })
    }

    fn same(&self, other: &Field<T>) -> bool {
        self.name.same(&other.name) && self.value.same(&other.value)
    }
}

impl<T: Tree + Drop> Tree for Pairs<T> {
    fn copy(&self, alloc: Global) -> Result<Pairs<T>, AllocError> {
        let mut copies = Pairs::new(alloc);
        for field in self.as_slice() {
            copies.push(field.name.copy(alloc)?, field.value.copy(alloc)?)?;
        }
        Ok(copies)
    }

    fn same(&self, other: &Pairs<T>) -> bool {
        let fields = self.as_slice();
        let others = other.as_slice();
        if fields.len() != others.len() {
            return false;
        }
        for i in 0..fields.len() {
            if !fields[i].same(&others[i]) {
                return false;
            }
        }
        true
    }
}
