// Registrations.
ghost use Rattle.lsp_offer_work.specs.Registration.{registration_row, registration_params_row, unregistration_row, unregistration_params_row};

use lsp_shape::{Misfit, NoMemory, Optional, Required, Wire, Writer, read_object};
use serde_json::Value;
use std::alloc::Global;

/// A feature that a server registers while it runs, as an item of a `client/registerCapability`
/// request (LSP 3.17, "Register Capability").
#[derive(Debug, PartialEq, Clone, Drop)]
pub struct Registration {
    /// An id that the server chooses, and repeats when it unregisters the feature.
    pub id: String,
    /// The method or capability, such as `workspace/didChangeWatchedFiles`.
    pub method: String,
    /// The options that belong to the method, as JSON: for `textDocument/hover`, a
    /// `HoverRegistrationOptions`. Absent if the method needs none.
    pub register_options: Option<Value>,
}

#[tactic(auto, unfolding(crate::specs::Registration::registration_row))]
impl Wire for Registration {
    ghost shape = { registration_row.shape };

    ghost shown = { registration_row.shown };

    fn from_value(alloc: Global, value: &Value) -> Result<Registration, Misfit> {
        let (id, method, register_options) = read_object(
            alloc,
            value,
            (
                Required("id"),
                Required("method"),
                Optional("registerOptions"),
            ),
        )?;
        Ok(Registration {
            id,
            method,
            register_options,
        })
    }

    fn to_value(&self, alloc: Global) -> Result<Value, NoMemory> {
        let mut object = Writer::new(alloc);
        object.field("id", &self.id);
        object.field("method", &self.method);
        object.optional("registerOptions", &self.register_options);
        object.end()
    }
}

/// Parameters of the request `client/registerCapability`, sent by the server (LSP 3.17, "Register
/// Capability").
#[derive(Debug, PartialEq, Clone, Drop)]
pub struct RegistrationParams {
    /// The features to register.
    pub registrations: Vec<Registration>,
}

#[tactic(auto, unfolding(crate::specs::Registration::registration_params_row))]
impl Wire for RegistrationParams {
    ghost shape = { registration_params_row.shape };

    ghost shown = { registration_params_row.shown };

    fn from_value(alloc: Global, value: &Value) -> Result<RegistrationParams, Misfit> {
        let registrations = read_object(alloc, value, Required("registrations"))?;
        Ok(RegistrationParams { registrations })
    }

    fn to_value(&self, alloc: Global) -> Result<Value, NoMemory> {
        let mut object = Writer::new(alloc);
        object.field("registrations", &self.registrations);
        object.end()
    }
}

/// A registration that a server ends, as an item of a `client/unregisterCapability` request (LSP
/// 3.17, "Unregister Capability").
#[derive(Debug, PartialEq, Eq, Clone, Drop)]
pub struct Unregistration {
    /// The id under which the feature was registered.
    pub id: String,
    /// The method or capability that was registered.
    pub method: String,
}

#[tactic(auto, unfolding(crate::specs::Registration::unregistration_row))]
impl Wire for Unregistration {
    ghost shape = { unregistration_row.shape };

    ghost shown = { unregistration_row.shown };

    fn from_value(alloc: Global, value: &Value) -> Result<Unregistration, Misfit> {
        let (id, method) = read_object(alloc, value, (Required("id"), Required("method")))?;
        Ok(Unregistration { id, method })
    }

    fn to_value(&self, alloc: Global) -> Result<Value, NoMemory> {
        let mut object = Writer::new(alloc);
        object.field("id", &self.id);
        object.field("method", &self.method);
        object.end()
    }
}

/// Parameters of the request `client/unregisterCapability`, sent by the server (LSP 3.17,
/// "Unregister Capability").
#[derive(Debug, PartialEq, Eq, Clone, Drop)]
pub struct UnregistrationParams {
    /// The registrations to end. The standard itself spells this name so.
    pub unregisterations: Vec<Unregistration>,
}

#[tactic(auto, unfolding(crate::specs::Registration::unregistration_params_row))]
impl Wire for UnregistrationParams {
    ghost shape = { unregistration_params_row.shape };

    ghost shown = { unregistration_params_row.shown };

    fn from_value(alloc: Global, value: &Value) -> Result<UnregistrationParams, Misfit> {
        let unregisterations = read_object(alloc, value, Required("unregisterations"))?;
        Ok(UnregistrationParams { unregisterations })
    }

    fn to_value(&self, alloc: Global) -> Result<Value, NoMemory> {
        let mut object = Writer::new(alloc);
        object.field("unregisterations", &self.unregisterations);
        object.end()
    }
}
