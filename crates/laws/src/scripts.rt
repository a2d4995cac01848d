//! Worked examples.
ghost use Rattle.laws.specs.Scripts.{ElevenScripts};

/// Eleven scripts, with every answer and all tables that they leave.
pub fn eleven_scripts_stand() -> u8
    ensures { ElevenScripts }
{
    0
}
