// The laws, as contracts of functions with empty bodies.
ghost use Rattle.code_paths.specs.Uniqueness.{SomeAreGiven, SomeAreEnded, SomeAreReported};

/// For any start and any path memory, costs define bits given, bits at the end and reports.
pub fn existence()
    ensures given { SomeAreGiven }
    ensures ended { SomeAreEnded }
    ensures reported { SomeAreReported }
{}
