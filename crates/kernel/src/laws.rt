// What is so of every kernel.
ghost use Rattle.kernel.specs.Sound.{KernelsAreSound};

// Each kernel has what every kernel keeps, and each answer names the runnable task of greatest priority.
#[tactic(auto, using(crate::proofs::States::sound_kernels))]
pub fn kernels_are_sound() -> u8
    ensures { KernelsAreSound }
{
    0
}
