/// Why an edit is refused.
#[derive(Clone, Copy, Debug, PartialEq, Eq)]
pub enum Refused {
    /// A module that the edit names doesn't exist.
    NoModule = 1,
    /// The variable that the edit names doesn't exist.
    NoVariable = 2,
    /// 64 modules exist.
    TooManyModules = 3,
    /// There would be more than 1,024 variables, deleted ones among them.
    TooManyVariables = 4,
    /// No variable of the module has the name, or the cell has none.
    NotNamed = 5,
    /// Two or more variables of the module have the name.
    NamedTwice = 6,
}
