// The functions that a table of figures may ask for, each by its letter.

// A letter that names no function.
#[derive(Clone, Copy, Debug, PartialEq, Eq)]
pub(crate) struct UnknownFunction;

// What is asked of a whole study.
#[derive(Clone, Copy, Debug, PartialEq, Eq)]
pub(crate) enum Asked {
    Refusal,
    Inflow,
    Figures,
}

#[derive(Clone, Copy, Debug, PartialEq, Eq)]
pub(crate) enum Function {
    Covers,
    Composite,
    Mean,
    Depth,
    Depths,
    Segment,
    Path,
    Timing,
    Weight,
    Volume,
    SumOfProducts,
    PondSum,
    Route,
    RoutedSum,
    Study(Asked),
}

impl TryFrom<u8> for Function {
    type Error = UnknownFunction;

    fn try_from(letter: u8) -> Result<Function, UnknownFunction> {
        match letter {
            b'c' => Ok(Function::Covers),
            b'p' => Ok(Function::Composite),
            b'm' => Ok(Function::Mean),
            b'd' => Ok(Function::Depth),
            b'a' => Ok(Function::Depths),
            b's' => Ok(Function::Segment),
            b'f' => Ok(Function::Path),
            b't' => Ok(Function::Timing),
            b'w' => Ok(Function::Weight),
            b'v' => Ok(Function::Volume),
            b'h' => Ok(Function::SumOfProducts),
            b'X' => Ok(Function::PondSum),
            b'r' => Ok(Function::Route),
            b'x' => Ok(Function::RoutedSum),
            b'S' => Ok(Function::Study(Asked::Refusal)),
            b'I' => Ok(Function::Study(Asked::Inflow)),
            b'F' => Ok(Function::Study(Asked::Figures)),
            _ => Err(UnknownFunction),
        }
    }
}
