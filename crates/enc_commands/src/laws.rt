//! What the definitions give for the examples, as the contracts of functions that do nothing.
ghost use Rattle.enc_commands.specs.Example.{ExampleIsShown, ExampleIsExtended, ExampleIsListed};
ghost use Rattle.enc_commands.specs.Served.{ServedCallsServe};

/// `show` of the first TypeRef row of the 200 bytes of the example, by the definitions alone.
pub fn example_row()
    ensures { ExampleIsShown }
{}

/// `show` of the TypeRef row that the example's delta adds, by the definitions alone.
pub fn example_delta_row()
    ensures { ExampleIsExtended }
{}

/// `list` of the example and its delta, by the definitions alone.
pub fn example_listing()
    ensures { ExampleIsListed }
{}

/// What `run_tool` promises, fact by fact: its status is the verdict's, what it prints and saves is what the
/// verdict says, and a fault outside is always told.
#[tactic(auto, unfolding(crate::specs::Served::IsServed))]
pub fn served_law()
    ensures { ServedCallsServe }
{}
