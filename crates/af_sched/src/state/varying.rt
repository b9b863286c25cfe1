ghost use Rattle.std.specs.Prelude.{◌≡◌, ◌≢◌, ◌+◌, ◌<◌, ◌≤◌, Err, IfSome, IsNone, IsOk, OnErr, OnOk, is_ok, option_copied, if◌then◌else◌};
ghost use Rattle.af_vars.specs.Variables as variables;

use crate::state::State;
use af_names::VarKey;
use af_vars::{VarText, Variable, VariableFault};

impl State {
    /// The variables, by key.
    pub fn variables(&self) -> &[Variable]
        ensures rows { result.now ≡ self.now.rows.variables }
        ensures kept { variables.AreVariables self.now.rows.variables }
    {
        self.variables.rows()
    }

    /// The variable of this key.
    pub fn variable(&self, key: &VarKey) -> Option<&Variable>
        ensures { option_copied result ≡ variables.variable_of self.now.rows.variables key.now }
    {
        self.variables.get(key)
    }

    /// Why a variable of this key would not be added, memory aside: the fault of `Variables::add_fault`.
    pub fn add_variable_fault(&self, key: &VarKey) -> Option<VariableFault>
        ensures { result ≡ variables.add_fault self.now.rows.variables key.now }
    {
        self.variables.add_fault(key)
    }

    /// Why the variable of this key would get no other text, and would not be removed: the fault of
    /// `Variables::change_fault`.
    pub fn change_variable_fault(&self, key: &VarKey) -> Option<VariableFault>
        ensures { result ≡ variables.change_fault self.now.rows.variables key.now }
    {
        self.variables.change_fault(key)
    }

    /// Adds a variable. Its faults are those of `Variables::add`; a fault leaves the rows as they were, and `OutOfMemory`
    /// comes only where a growth was refused, never where memory is reserved.
    pub fn add_variable(&mut self, variable: Variable) -> Result<(), VariableFault>
        ensures refused { IfSome (variables.add_fault self.old.rows.variables variable.key) (λ fault. result ≡ Err fault) }
        ensures accepted { IsNone (variables.add_fault self.old.rows.variables variable.key) → variables.IsOkOrOutOfMemory result }
        ensures ok { OnOk result (self.new.rows ≡ record self.old.rows {
          variables = variables.with_variable self.old.rows.variables variable;
        }) }
        ensures err { OnErr result (self.new.rows ≡ self.old.rows) }
        ensures roomy { 0 < self.old.spare_variables → result ≢ Err VariableFault.OutOfMemory }
        ensures spare { self.old.spare_variables ≤ self.new.spare_variables + (if is_ok result then 1 else 0) }
        ensures spare_runs { self.new.spare_runs ≡ self.old.spare_runs }
        ensures spare_pools { self.new.spare_pools ≡ self.old.spare_pools }
    {
        self.variables.add(variable)
    }

    /// Gives a variable another text. Its fault is that of `change_variable_fault`; a fault leaves the state as it was, and
    /// the text is given up. It takes no memory.
    pub fn set_variable(&mut self, key: &VarKey, value: VarText) -> Result<(), VariableFault>
        ensures refused { IfSome (variables.change_fault self.old.rows.variables key.now) (λ fault. result ≡ Err fault) }
        ensures accepted { IsNone (variables.change_fault self.old.rows.variables key.now) → IsOk result }
        ensures ok { OnOk result (self.new ≡ record self.old {
          rows = record self.old.rows { variables = variables.with_value self.old.rows.variables key.now value };
        }) }
        ensures err { OnErr result (self.new ≡ self.old) }
    {
        self.variables.set_value(key, value)
    }

    /// Removes a variable. Its fault is that of `change_variable_fault`; a fault leaves the state as it was. It takes no
    /// memory.
    pub fn remove_variable(&mut self, key: &VarKey) -> Result<(), VariableFault>
        ensures refused { IfSome (variables.change_fault self.old.rows.variables key.now) (λ fault. result ≡ Err fault) }
        ensures accepted { IsNone (variables.change_fault self.old.rows.variables key.now) → IsOk result }
        ensures ok { OnOk result (self.new.rows ≡ record self.old.rows {
          variables = variables.without_variable self.old.rows.variables key.now;
        }) }
        ensures err { OnErr result (self.new ≡ self.old) }
        ensures spare { self.old.spare_variables ≤ self.new.spare_variables }
        ensures spare_runs { self.new.spare_runs ≡ self.old.spare_runs }
        ensures spare_pools { self.new.spare_pools ≡ self.old.spare_pools }
    {
        self.variables.remove(key)
    }
}
