// Deeds of threads that share a coffer.
ghost use Rattle.zo_shared.specs.Rely.{RelyLaw, SoundLaw};

/// Whoever does a deed that it may do leaves all sound.
pub fn sound_law()
    ensures { SoundLaw }
{}

/// It leaves others what they rely on, and itself what anyone may rely on.
pub fn rely_law()
    ensures { RelyLaw }
{}
