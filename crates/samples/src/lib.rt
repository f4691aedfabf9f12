// Worked examples: figures that the checker computes from the definitions, and tests that run the code.
#![tactic(auto)]

ghost use Rattle.std.specs.Prelude.{◌≡◌};
ghost use Rattle.samples.specs.Figures.{sample_figures_of};

#[cfg(test)]
mod tests;

// The sample figures, each what its definition computes to.
pub fn sample_figures() -> [u32; 8]
    ensures { result ≡ sample_figures_of }
{
    [1, 1, 1, 0x340C_A71C, 28, 2, 3, 8]
}
