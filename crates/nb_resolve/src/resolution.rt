/// What a name stands for in a module.
#[derive(Clone, Copy, Debug, PartialEq, Eq)]
pub enum Resolution {
    Var(u32),
    /// By its position among the builtins, from 0.
    Builtin(u32),
    /// Two or more variables of the module have it.
    Twice,
    Missing,
}
