// The functions of matrices that a task may ask for, by their codes.
ghost use Rattle.sheet_tasks.specs.Functions.{IsCodeOf};

// Those that give one matrix.
#[derive(Clone, Copy, PartialEq, Eq)]
pub enum Value {
    Expm,
    Logm,
    Sqrtm,
    Powm,
    Cosm,
    Sinm,
}

// Those that give a matrix and its derivative in a direction.
#[derive(Clone, Copy, PartialEq, Eq)]
pub enum Derivative {
    FrechetExpm,
    FrechetLogm,
    FrechetSqrtm,
    FrechetSqrtmSylvester,
}

// What a task asks for.
#[derive(Clone, Copy, PartialEq, Eq)]
pub enum Function {
    Value(Value),
    Derivative(Derivative),
    CondExpm,
}

impl From<u8> for Function {
    ghost from_gives = { IsCodeOf };

    fn from(code: u8) -> Function {
        match code {
            0 => Function::Value(Value::Expm),
            1 => Function::Value(Value::Logm),
            2 => Function::Value(Value::Sqrtm),
            3 => Function::Value(Value::Powm),
            4 => Function::Value(Value::Cosm),
            5 => Function::Value(Value::Sinm),
            6 => Function::Derivative(Derivative::FrechetExpm),
            7 => Function::Derivative(Derivative::FrechetLogm),
            8 => Function::Derivative(Derivative::FrechetSqrtm),
            10 => Function::Derivative(Derivative::FrechetSqrtmSylvester),
            _ => Function::CondExpm,
        }
    }
}
