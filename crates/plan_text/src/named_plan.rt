//! A plan with the names of its devices.
ghost use Rattle.std.specs.Prelude.{◌≡◌};

use base_types::Text;
use plan_prices::Plan;
use std::marker::Model;

/// A plan with the names of its devices, as its text has them. In clauses it is a record of the same fields.
#[derive(Drop)]
pub struct PlanText {
    devices: Vec<Text>,
    plan: Plan,
}

impl Model for PlanText {
    ghost use Rattle.plan_text.specs.NamedPlan.{NamedPlan};

    ghost Value = { NamedPlan };

    ghost view = { λ text. record { devices = text.devices.items; plan = text.plan } };
}

impl PlanText {
    /// A plan with the names of its devices.
    pub fn new(devices: Vec<Text>, plan: Plan) -> PlanText
        ensures { result ≡ record { devices = devices.items; plan = plan } }
    {
        PlanText { devices, plan }
    }

    /// The names of the devices, in the order of the plan's lists.
    pub fn devices(&self) -> &[Text]
        ensures { result.now ≡ self.now.devices }
    {
        &self.devices
    }

    /// The plan.
    pub fn plan(&self) -> &Plan
        ensures { result.now ≡ self.now.plan }
    {
        &self.plan
    }
}
