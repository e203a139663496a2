//! The law of generated scripts. It is the contract of a function that does nothing.

ghost use Rattle.usb_script.specs.Scripts.{GeneratedScriptsParse};

/// Every generated text of 1 to 2000 messages is a script.
#[tactic(auto, using(crate::proofs::ScriptsParse::generated_scripts_parse))]
pub fn generated_scripts_parse()
    ensures law { GeneratedScriptsParse }
{}
