// Written by tools/asn1/compile: change the ASN.1, not this file.
//! BasicVehicleContainerHighFrequency, of the module CAM-PDU-Descriptions.

ghost use Rattle.cam.specs.CamPduDescriptions.{basic_vehicle_container_high_frequency_lists};
ghost use Rattle.rasn_below.specs.Page.{bits, fields_of, slot_levels, slot_of, whole};
ghost use Rattle.std.specs.Prelude.{Some, [], max, pos, refl, ◌∷◌};

use its_container::aliases::{AccelerationControl, LanePosition, PerformanceClass, VehicleWidth};
use its_container::cen_dsrc_tolling_zone::CenDsrcTollingZone;
use its_container::curvature::Curvature;
use its_container::curvature_calculation_mode::CurvatureCalculationMode;
use its_container::drive_direction::DriveDirection;
use its_container::heading::Heading;
use its_container::lateral_acceleration::LateralAcceleration;
use its_container::longitudinal_acceleration::LongitudinalAcceleration;
use its_container::speed::Speed;
use its_container::steering_wheel_angle::SteeringWheelAngle;
use its_container::vehicle_length::VehicleLength;
use its_container::vertical_acceleration::VerticalAcceleration;
use its_container::yaw_rate::YawRate;
use rasn_below::page::*;

/// BasicVehicleContainerHighFrequency ::= SEQUENCE {
///     heading Heading,
///     speed Speed,
///     driveDirection DriveDirection,
///     vehicleLength VehicleLength,
///     vehicleWidth VehicleWidth,
///     longitudinalAcceleration LongitudinalAcceleration,
///     curvature Curvature,
///     curvatureCalculationMode CurvatureCalculationMode,
///     yawRate YawRate,
///     accelerationControl AccelerationControl OPTIONAL,
///     lanePosition LanePosition OPTIONAL,
///     steeringWheelAngle SteeringWheelAngle OPTIONAL,
///     lateralAcceleration LateralAcceleration OPTIONAL,
///     verticalAcceleration VerticalAcceleration OPTIONAL,
///     performanceClass PerformanceClass OPTIONAL,
///     cenDsrcTollingZone CenDsrcTollingZone OPTIONAL
/// }
#[derive(Debug, Drop, PartialEq)]
pub struct BasicVehicleContainerHighFrequency {
    pub heading: Heading,
    pub speed: Speed,
    pub drive_direction: DriveDirection,
    pub vehicle_length: VehicleLength,
    pub vehicle_width: VehicleWidth,
    pub longitudinal_acceleration: LongitudinalAcceleration,
    pub curvature: Curvature,
    pub curvature_calculation_mode: CurvatureCalculationMode,
    pub yaw_rate: YawRate,
    pub acceleration_control: Option<AccelerationControl>,
    pub lane_position: Option<LanePosition>,
    pub steering_wheel_angle: Option<SteeringWheelAngle>,
    pub lateral_acceleration: Option<LateralAcceleration>,
    pub vertical_acceleration: Option<VerticalAcceleration>,
    pub performance_class: Option<PerformanceClass>,
    pub cen_dsrc_tolling_zone: Option<CenDsrcTollingZone>,
}

macro_rules! components { ($to:ident $($with:ident)*) => { $to! { [$($with)*]
    required 0 "heading" heading: Heading [];
    required 1 "speed" speed: Speed [];
    required 2 "driveDirection" drive_direction: DriveDirection [];
    required 3 "vehicleLength" vehicle_length: VehicleLength [];
    required 4 "vehicleWidth" vehicle_width: VehicleWidth [1..=62];
    required 5 "longitudinalAcceleration" longitudinal_acceleration: LongitudinalAcceleration [];
    required 6 "curvature" curvature: Curvature [];
    required 7 "curvatureCalculationMode" curvature_calculation_mode: CurvatureCalculationMode [];
    required 8 "yawRate" yaw_rate: YawRate [];
    optional 9 "accelerationControl" acceleration_control: Option<AccelerationControl> [SIZE 7..=7];
    optional 10 "lanePosition" lane_position: Option<LanePosition> [-1..=14];
    optional 11 "steeringWheelAngle" steering_wheel_angle: Option<SteeringWheelAngle> [];
    optional 12 "lateralAcceleration" lateral_acceleration: Option<LateralAcceleration> [];
    optional 13 "verticalAcceleration" vertical_acceleration: Option<VerticalAcceleration> [];
    optional 14 "performanceClass" performance_class: Option<PerformanceClass> [0..=7];
    optional 15 "cenDsrcTollingZone" cen_dsrc_tolling_zone: Option<CenDsrcTollingZone> [];
} }; }

const FIELDS: FieldLists = components!(fields);

const BOUNDS: Bounds = components!(bounds);

impl Components for BasicVehicleContainerHighFrequency {
    const COMPONENTS: FieldLists = FIELDS;

    ghost COMPONENTS = { fields_of basic_vehicle_container_high_frequency_lists };

    ghost components = { (basic_vehicle_container_high_frequency_lists, refl) };

    ghost contents = { λ x.
        Some (⟦<Heading as AsnType>⟧.value x.heading) ∷
        Some (⟦<Speed as AsnType>⟧.value x.speed) ∷
        Some (⟦<DriveDirection as AsnType>⟧.value x.drive_direction) ∷
        Some (⟦<VehicleLength as AsnType>⟧.value x.vehicle_length) ∷
        Some (whole (pos x.vehicle_width)) ∷
        Some (⟦<LongitudinalAcceleration as AsnType>⟧.value x.longitudinal_acceleration) ∷
        Some (⟦<Curvature as AsnType>⟧.value x.curvature) ∷
        Some (⟦<CurvatureCalculationMode as AsnType>⟧.value x.curvature_calculation_mode) ∷
        Some (⟦<YawRate as AsnType>⟧.value x.yaw_rate) ∷
        slot_of bits x.acceleration_control ∷
        slot_of whole x.lane_position ∷
        slot_of ⟦<SteeringWheelAngle as AsnType>⟧.value x.steering_wheel_angle ∷
        slot_of ⟦<LateralAcceleration as AsnType>⟧.value x.lateral_acceleration ∷
        slot_of ⟦<VerticalAcceleration as AsnType>⟧.value x.vertical_acceleration ∷
        slot_of (λ v. whole (pos v)) x.performance_class ∷
        slot_of ⟦<CenDsrcTollingZone as AsnType>⟧.value x.cen_dsrc_tolling_zone ∷
        [] };

    ghost depth = { λ x.
        (max (⟦<Heading as AsnType>⟧.levels x.heading)
        (max (⟦<Speed as AsnType>⟧.levels x.speed)
        (max 0
        (max (⟦<VehicleLength as AsnType>⟧.levels x.vehicle_length)
        (max 0
        (max (⟦<LongitudinalAcceleration as AsnType>⟧.levels x.longitudinal_acceleration)
        (max (⟦<Curvature as AsnType>⟧.levels x.curvature)
        (max 0
        (max (⟦<YawRate as AsnType>⟧.levels x.yaw_rate)
        (max (slot_levels ⟦<AccelerationControl as AsnType>⟧.levels x.acceleration_control)
        (max (slot_levels ⟦<LanePosition as AsnType>⟧.levels x.lane_position)
        (max (slot_levels ⟦<SteeringWheelAngle as AsnType>⟧.levels x.steering_wheel_angle)
        (max (slot_levels ⟦<LateralAcceleration as AsnType>⟧.levels x.lateral_acceleration)
        (max (slot_levels ⟦<VerticalAcceleration as AsnType>⟧.levels x.vertical_acceleration)
        (max (slot_levels ⟦<PerformanceClass as AsnType>⟧.levels x.performance_class)
        (max (slot_levels ⟦<CenDsrcTollingZone as AsnType>⟧.levels x.cen_dsrc_tolling_zone) 0)))))))))))))))) };
}

impl Record for BasicVehicleContainerHighFrequency {
    fn encode_components<E: Encoder>(&self, encoder: &mut E) -> Result<(), E::Error> {
        components!(encode_components self encoder)
    }

    fn decode_components<D: Decoder>(decoder: &mut D) -> Result<Self, D::Error> {
        components!(decode_components decoder)
    }
}
