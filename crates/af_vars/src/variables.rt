ghost use Rattle.std.specs.Prelude.{◌≡◌, ◌≢◌, ◌+◌, ◌<◌, ◌≤◌, [], Err, Some, IfOk, IfErr, IfSome, IsNone, IsOk, OnOk, OnErr, option_copied, is_ok, if◌then◌else◌};
ghost use Rattle.af_vars.specs.Places.{CanAdd, CanChange};
ghost use Rattle.af_vars.specs.Variables.{AreVariables, has_variable, variable_of, with_variable, with_value, without_variable, add_fault, change_fault, IsOkOrOutOfMemory};

use crate::copying::copied;
use crate::fault::VariableFault;
use crate::var_text::VarText;
use crate::variable::{SetValue, Variable};
use af_base::Ordered;
use af_names::VarKey;
use std::alloc::{AllocError, Global};
use std::marker::Model;

/// The most variables that there are.
pub const MOST_VARIABLES: usize = 65_536;

/// The variables, by key in byte order. Contracts see them as that list of rows, beside the number of rows for which
/// memory is reserved.
pub struct Variables {
    rows: Ordered<Variable>,
}

impl Drop for Variables {
    fn drop(self) {
        let Variables { rows: _ } = self;
    }
}

impl Model for Variables {
    ghost use Rattle.af_vars.specs.Variables.{VariableRows, AreVariables};

    ghost Value = { VariableRows };

    ghost view = { λ variables. variables.rows };

    ghost invariant = { λ variables. AreVariables variables.rows.rows };
}

impl Variables {
    /// No variable. It takes no memory.
    pub fn new(alloc: Global) -> Variables
        ensures { result.rows ≡ [] }
    {
        Variables {
            rows: Ordered::new(alloc),
        }
    }

    /// The same variables again. `AllocError` only where a growth was refused.
    pub fn copied(&self, alloc: Global) -> Result<Variables, AllocError>
        ensures { IfOk result (λ variables. variables.rows ≡ self.now.rows) }
    {
        let rows = copied(alloc, self.rows())?;
        Ok(Variables { rows })
    }

    /// The rows, by key in byte order.
    pub fn rows(&self) -> &[Variable]
        ensures rows { result.now ≡ self.now.rows }
        ensures kept { AreVariables self.now.rows }
    {
        self.rows.rows()
    }

    /// For how many more variables memory is reserved.
    pub fn spare(&self) -> usize
        ensures { result ≡ self.now.spare }
    {
        self.rows.spare()
    }

    /// Reserves memory for that many more variables. `AllocError` only where a growth was refused, so never where there
    /// is room already; then as before.
    pub fn reserve(&mut self, additional: usize) -> Result<(), AllocError>
        ensures ok { OnOk result (additional ≤ self.new.spare) }
        ensures roomy { additional ≤ self.old.spare → IsOk result }
        ensures err { OnErr result (self.new.spare ≡ self.old.spare) }
        ensures rows { self.new.rows ≡ self.old.rows }
        ensures spare { self.old.spare ≤ self.new.spare }
    {
        self.rows.reserve(additional)
    }

    /// Why a variable of this key would not be added, memory aside: `Exists` where a variable has the key; `Full` at
    /// 65,536 variables.
    pub fn add_fault(&self, key: &VarKey) -> Option<VariableFault>
        ensures { result ≡ add_fault self.now.rows key.now }
    {
        self.place_to_add(key).err()
    }

    /// Adds a variable. Its faults are those of `add_fault`, and `OutOfMemory`, only where a growth was refused and
    /// never where memory is reserved. A fault leaves the variables as they were.
    pub fn add(&mut self, variable: Variable) -> Result<(), VariableFault>
        ensures refused { IfSome (add_fault self.old.rows variable.key) (λ fault. result ≡ Err fault) }
        ensures accepted { IsNone (add_fault self.old.rows variable.key) → IsOkOrOutOfMemory result }
        ensures ok { OnOk result (self.new.rows ≡ with_variable self.old.rows variable) }
        ensures err { OnErr result (self.new.rows ≡ self.old.rows) }
        ensures roomy { 0 < self.old.spare → result ≢ Err VariableFault.OutOfMemory }
        ensures spare { self.old.spare ≤ self.new.spare + (if is_ok result then 1 else 0) }
    {
        let place = self.place_to_add(&variable.key)?;
        self.rows.insert_at(place, variable)?;
        Ok(())
    }

    /// Why the variable of this key would get no other text, and would not be removed: `NoSuchVariable` where no
    /// variable has the key.
    pub fn change_fault(&self, key: &VarKey) -> Option<VariableFault>
        ensures { result ≡ change_fault self.now.rows key.now }
    {
        self.place_to_change(key).err()
    }

    /// Gives a variable another text. Its fault is that of `change_fault`; a fault leaves the variables as they were,
    /// and the text is given up.
    pub fn set_value(&mut self, key: &VarKey, value: VarText) -> Result<(), VariableFault>
        ensures refused { IfSome (change_fault self.old.rows key.now) (λ fault. result ≡ Err fault) }
        ensures accepted { IsNone (change_fault self.old.rows key.now) → IsOk result }
        ensures ok { OnOk result (self.new ≡ record self.old { rows = with_value self.old.rows key.now value }) }
        ensures err { OnErr result (self.new ≡ self.old) }
    {
        let place = self.place_to_change(key)?;
        self.rows.change_at(key.as_str(), place, SetValue { value });
        Ok(())
    }

    /// Removes a variable. Its fault is that of `change_fault`; a fault leaves the variables as they were.
    pub fn remove(&mut self, key: &VarKey) -> Result<(), VariableFault>
        ensures refused { IfSome (change_fault self.old.rows key.now) (λ fault. result ≡ Err fault) }
        ensures accepted { IsNone (change_fault self.old.rows key.now) → IsOk result }
        ensures ok { OnOk result (self.new.rows ≡ without_variable self.old.rows key.now) }
        ensures err { OnErr result (self.new ≡ self.old) }
        ensures spare { self.old.spare ≤ self.new.spare }
    {
        let place = self.place_to_change(key)?;
        let _variable = self.rows.remove_at(key.as_str(), place);
        Ok(())
    }

    /// Where the row of a variable that may be added goes.
    fn place_to_add(&self, key: &VarKey) -> Result<usize, VariableFault>
        ensures ok { IfOk result (CanAdd self.now.rows key.now) }
        ensures err { IfErr result (λ fault. add_fault self.now.rows key.now ≡ Some fault) }
    {
        match self.rows.place(key.as_str()) {
            Ok(_) => Err(VariableFault::Exists),
            Err(_) if self.rows().len() >= MOST_VARIABLES => Err(VariableFault::Full),
            Err(place) => Ok(place),
        }
    }

    /// Where the row of a variable stands that may be changed or removed.
    fn place_to_change(&self, key: &VarKey) -> Result<usize, VariableFault>
        ensures ok { IfOk result (CanChange self.now.rows key.now) }
        ensures err { IfErr result (λ fault. change_fault self.now.rows key.now ≡ Some fault) }
    {
        match self.rows.place(key.as_str()) {
            Ok(place) => Ok(place),
            Err(_) => Err(VariableFault::NoSuchVariable),
        }
    }

    /// Whether there is a variable of this key.
    pub fn has(&self, key: &VarKey) -> bool
        ensures { result ≡ has_variable self.now.rows key.now }
    {
        self.rows.has(key.as_str())
    }

    /// The variable of this key.
    pub fn get(&self, key: &VarKey) -> Option<&Variable>
        ensures { option_copied result ≡ variable_of self.now.rows key.now }
    {
        self.rows.get(key.as_str())
    }
}
