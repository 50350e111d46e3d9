//! What holds of linked modules. This function does nothing; its contract is the law.
ghost use Rattle.module_rules.specs.Among.{LinkedModulesKeepRules};

use proc_templates::laws::names_differ;

/// Resolved modules whose components are among linked parts, in their order, keep the rules of modules.
///
/// The size of stack is that of the link.
pub fn linked_modules_keep_rules()
    ensures { LinkedModulesKeepRules }
{
    names_differ();
}
