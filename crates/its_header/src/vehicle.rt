//! VehicleState: a SEQUENCE of sixteen components.

ghost use Rattle.std.specs.Prelude.{[], ◌∷◌, Some, pos, refl};
ghost use Rattle.rasn_below.specs.Page.{truth, whole, fields_of};
ghost use Rattle.its_header.specs.Vehicles.{vehicle_state};

use rasn_below::page::*;

/// VehicleState, by the list of its components below.
#[derive(Clone, Copy, Debug, PartialEq, Eq)]
pub struct VehicleState {
    pub heading: u16,
    pub speed: u16,
    pub drive_direction: u8,
    pub vehicle_length: u16,
    pub vehicle_width: u8,
    pub longitudinal_acceleration: i16,
    pub curvature: i32,
    pub yaw_rate: i32,
    pub acceleration_control: u8,
    pub lane_position: i8,
    pub steering_wheel_angle: i16,
    pub lateral_acceleration: i16,
    pub vertical_acceleration: i16,
    pub performance_class: u8,
    pub protected_zone: u32,
    pub braking: bool,
}

macro_rules! components { ($to:ident $($with:ident)*) => { $to! { [$($with)*]
    required 0 "heading" heading: u16 [0..=3601];
    required 1 "speed" speed: u16 [0..=16_383];
    required 2 "driveDirection" drive_direction: u8 [0..=2];
    required 3 "vehicleLength" vehicle_length: u16 [1..=1023];
    required 4 "vehicleWidth" vehicle_width: u8 [1..=62];
    required 5 "longitudinalAcceleration" longitudinal_acceleration: i16 [-160..=161];
    required 6 "curvature" curvature: i32 [-30_000..=30_001];
    required 7 "yawRate" yaw_rate: i32 [-32_766..=32_767];
    required 8 "accelerationControl" acceleration_control: u8 [0..=127];
    required 9 "lanePosition" lane_position: i8 [-1..=14];
    required 10 "steeringWheelAngle" steering_wheel_angle: i16 [-511..=512];
    required 11 "lateralAcceleration" lateral_acceleration: i16 [-160..=161];
    required 12 "verticalAcceleration" vertical_acceleration: i16 [-160..=161];
    required 13 "performanceClass" performance_class: u8 [0..=7];
    required 14 "protectedZone" protected_zone: u32 [0..=134_217_727];
    required 15 "braking" braking: bool [];
} }; }

const FIELDS: FieldLists = components!(fields);

const BOUNDS: Bounds = components!(bounds);

impl Components for VehicleState {
    const COMPONENTS: FieldLists = FIELDS;

    ghost COMPONENTS = { fields_of vehicle_state };

    ghost components = { (vehicle_state, refl) };

    ghost contents = { λ x.
        Some (whole (pos x.heading)) ∷
        Some (whole (pos x.speed)) ∷
        Some (whole (pos x.drive_direction)) ∷
        Some (whole (pos x.vehicle_length)) ∷
        Some (whole (pos x.vehicle_width)) ∷
        Some (whole x.longitudinal_acceleration) ∷
        Some (whole x.curvature) ∷
        Some (whole x.yaw_rate) ∷
        Some (whole (pos x.acceleration_control)) ∷
        Some (whole x.lane_position) ∷
        Some (whole x.steering_wheel_angle) ∷
        Some (whole x.lateral_acceleration) ∷
        Some (whole x.vertical_acceleration) ∷
        Some (whole (pos x.performance_class)) ∷
        Some (whole (pos x.protected_zone)) ∷
        Some (truth x.braking) ∷ [] };
}

impl Record for VehicleState {
    fn encode_components<E: Encoder>(&self, encoder: &mut E) -> Result<(), E::Error> {
        components!(encode_components self encoder)
    }

    fn decode_components<D: Decoder>(decoder: &mut D) -> Result<Self, D::Error> {
        components!(decode_components decoder)
    }
}
